// The form of a file: its lines one after the other, counted.
ghost use Rattle.std.specs.Prelude.{◌≡◌, ◌+◌, ◌≤◌, ◌<◌, length, Some};
ghost use Rattle.dimacs.specs.inner.FormReader.{on_problem, on_node, on_arc, next_of, end_of, LineEnd};

use crate::line::Line;
use refusal::{Cause, Refusal};

// A file's counts of nodes and of arcs as its p line says them.
#[derive(Clone, Copy, Debug, PartialEq, Eq)]
pub struct Counts {
    pub nodes: u64,
    pub arcs: u64,
}

// What is known of the lines before: whether the p line was there, what it says, and how many a lines there were.
#[derive(Clone, Copy, Debug, PartialEq, Eq)]
pub struct Tally {
    pub opened: bool,
    pub nodes: u64,
    pub said: u64,
    pub arcs: u64,
}

// The offset of the next LF, or the end.
pub fn line_end(s: &[u8], at: usize) -> usize
    requires { at ≤ length s.now }
    ensures { LineEnd s.now at result }
{
    for i in at..s.len() {
        if s[i] == b'\n' {
            return i;
        }
    }
    s.len()
}

fn with_problem(t: Tally, nodes: u64, said: u64) -> Option<Tally>
    ensures { result ≡ on_problem t nodes said }
{
    if t.opened {
        return None;
    }
    Some(Tally {
        opened: true,
        nodes,
        said,
        arcs: 0,
    })
}

fn with_node(t: Tally) -> Option<Tally>
    ensures { result ≡ on_node t }
{
    if !t.opened {
        return None;
    }
    if 0 < t.arcs {
        return None;
    }
    Some(t)
}

fn with_arc(t: Tally) -> Option<Tally>
    ensures { result ≡ on_arc t }
{
    if !t.opened {
        return None;
    }
    let arcs = t.arcs;
    if t.said <= arcs {
        return None;
    }
    Some(Tally {
        opened: true,
        arcs: arcs + 1,
        ..t
    })
}

// One more line.
pub fn with_line(t: Tally, l: Line) -> Option<Tally>
    ensures { result ≡ next_of t (Some l) }
{
    match l {
        Line::Comment => Some(t),
        Line::Problem { nodes, arcs } => with_problem(t, nodes, arcs),
        Line::Node { line: _ } => with_node(t),
        Line::Arc { line: _ } => with_arc(t),
    }
}

// The lines end before this one.
pub fn at_end(t: Tally, line: usize) -> Result<Counts, Refusal>
    ensures { result ≡ end_of t line }
{
    if !t.opened {
        return Err(Cause::Line.at(line as u64));
    }
    if t.arcs < t.said {
        return Err(Cause::Line.at(line as u64));
    }
    Ok(Counts {
        nodes: t.nodes,
        arcs: t.said,
    })
}

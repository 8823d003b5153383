// A line: a comment, the p line, an n line or an a line.
ghost use Rattle.std.specs.Prelude.{◌+◌, ◌≤◌, ◌<◌, length};
ghost use Rattle.dimacs.specs.Form.{problem_line, node_line, arc_of};
ghost use Rattle.dimacs.specs.inner.LineReader.{MinRead, LineRead, WholeLine};

use crate::bytes::{byte_at, read_field, read_signed_field, skip_spaces};

// The numbers of an n line, and of an a line.
#[derive(Clone, Copy, Debug, PartialEq, Eq)]
pub struct NodeNumbers {
    pub id: u64,
    pub supply: i64,
}

#[derive(Clone, Copy, Debug, PartialEq, Eq)]
pub struct ArcNumbers {
    pub start: u64,
    pub end: u64,
    pub low: u64,
    pub ceiling: u64,
    pub cost: i64,
}

#[derive(Clone, Copy, Debug, PartialEq, Eq)]
pub enum Line {
    Comment,
    Problem { nodes: u64, arcs: u64 },
    Node { line: NodeNumbers },
    Arc { line: ArcNumbers },
}

// The offset after one or more spaces and the word min.
fn after_min(s: &[u8], at: usize) -> Option<usize>
    requires { at ≤ length s.now }
    ensures { MinRead s.now at result }
{
    if byte_at(s, at) != b' ' {
        return None;
    }
    let m = skip_spaces(s, at + 1);
    if byte_at(s, m) != b'm' {
        return None;
    }
    if byte_at(s, m + 1) != b'i' {
        return None;
    }
    if byte_at(s, m + 2) != b'n' {
        return None;
    }
    Some(m + 3)
}

// The p line after its p.
fn read_problem(s: &[u8], at: usize) -> Option<Line>
    requires { at ≤ length s.now }
    ensures { LineRead problem_line s.now at result }
{
    let first = after_min(s, at)?;
    let nodes = read_field(s, first)?;
    let arcs = read_field(s, nodes.next)?;
    if arcs.next < s.len() {
        return None;
    }
    Some(Line::Problem {
        nodes: nodes.value,
        arcs: arcs.value,
    })
}

// An n line after its n.
fn read_node(s: &[u8], at: usize) -> Option<Line>
    requires { at ≤ length s.now }
    ensures { LineRead node_line s.now at result }
{
    let id = read_field(s, at)?;
    let supply = read_signed_field(s, id.next)?;
    if supply.next < s.len() {
        return None;
    }
    let line = NodeNumbers {
        id: id.value,
        supply: supply.value,
    };
    Some(Line::Node { line })
}

// An a line after its a.
fn read_arc(s: &[u8], at: usize) -> Option<Line>
    requires { at ≤ length s.now }
    ensures { LineRead arc_of s.now at result }
{
    let start = read_field(s, at)?;
    let end = read_field(s, start.next)?;
    let low = read_field(s, end.next)?;
    let ceiling = read_field(s, low.next)?;
    let cost = read_signed_field(s, ceiling.next)?;
    if cost.next < s.len() {
        return None;
    }
    let line = ArcNumbers {
        start: start.value,
        end: end.value,
        low: low.value,
        ceiling: ceiling.value,
        cost: cost.value,
    };
    Some(Line::Arc { line })
}

// A line without its LF.
pub fn read_line(s: &[u8]) -> Option<Line>
    ensures { WholeLine s.now result }
{
    let b = byte_at(s, 0);
    if b == b'c' {
        return Some(Line::Comment);
    }
    if b == b'p' {
        return read_problem(s, 1);
    }
    if b == b'n' {
        return read_node(s, 1);
    }
    if b == b'a' {
        return read_arc(s, 1);
    }
    None
}

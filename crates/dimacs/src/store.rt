// A file's lines kept in cells: the arcs in file order, the supplies by node.
ghost use Rattle.std.specs.Prelude.{◌≡◌, false, List, [], ◌++◌, ◌+◌, ◌<◌, ◌^◌, length, nat_abs, Some};
ghost use Rattle.dimacs.specs.Form.{ArcLine, NodeLine};
ghost use Rattle.dimacs.specs.Lines.{any_of, no_node, bad_arc};
ghost use Rattle.dimacs.specs.inner.LineReader.{Small};
ghost use Rattle.dimacs.specs.inner.Stored.{arc_made, node_made, arc_in, node_in, ArcsRead, NodesRead, Parts, ReadIs};

use crate::form::{Tally, at_end, line_end, with_line};
use crate::line::{ArcNumbers, Line, NodeNumbers, read_line};
use csv_print::magnitude;
use refusal::{Cause, Refusal};

// A file's counts, and whether one of its n lines or of its a lines is out of the limits.
#[derive(Clone, Copy, Debug, PartialEq, Eq)]
pub struct Reading {
    pub nodes: u64,
    pub arcs: u64,
    pub odd: bool,
    pub bad: bool,
}

// Is a number no node's?
fn no_node(nodes: u64, i: u64) -> bool
    ensures { result ≡ no_node nodes i }
{
    i < 1 || nodes < i
}

// Is an arc out of the limits?
fn bad_arc(nodes: u64, a: ArcNumbers) -> bool
    requires { nat_abs a.cost < 10 ^ 10 }
    ensures { result ≡ any_of (bad_arc nodes) (arc_made a) }
{
    if no_node(nodes, a.start) {
        return true;
    }
    if no_node(nodes, a.end) {
        return true;
    }
    if a.start == a.end {
        return true;
    }
    if 0 < a.low {
        return true;
    }
    if 4000 < a.ceiling {
        return true;
    }
    1_000_000 < magnitude(a.cost)
}

// One more a line, the arc k.
fn put_arc(
    nodes: u64,
    k: u64,
    bad: bool,
    a: ArcNumbers,
    starts: &mut [u64; 64],
    ends: &mut [u64; 64],
    ceilings: &mut [u64; 64],
    costs: &mut [i64; 64],
) -> bool
    requires { nat_abs a.cost < 10 ^ 10 }
    ensures { (arcs : List ArcLine) → length arcs ≡ k →
        ArcsRead nodes arcs bad starts.old ends.old ceilings.old costs.old →
        ArcsRead nodes (arcs ++ arc_made a) result starts.new ends.new ceilings.new
        costs.new }
{
    let worse = bad | bad_arc(nodes, a);
    if 64 <= k {
        return worse;
    }
    let j = k as usize;
    starts[j] = a.start;
    ends[j] = a.end;
    ceilings[j] = a.ceiling;
    costs[j] = a.cost;
    worse
}

// What a supply gives, and what it takes.
fn parts(supply: i64) -> (u64, u64)
    requires { nat_abs supply < 10 ^ 10 }
    ensures { Parts supply result.0 result.1 }
{
    let size = magnitude(supply);
    if supply < 0 { (0, size) } else { (size, 0) }
}

// One more n line.
fn put_node(
    nodes: u64,
    odd: bool,
    v: NodeNumbers,
    gives: &mut [u64; 32],
    takes: &mut [u64; 32],
    marks: &mut [u64; 32],
) -> bool
    requires { nat_abs v.supply < 10 ^ 10 }
    ensures { (sup : List NodeLine) → NodesRead nodes sup odd gives.old takes.old marks.old →
        NodesRead nodes (sup ++ node_made v) result gives.new takes.new marks.new }
{
    if v.id < 1 {
        return true;
    }
    if 32 < v.id {
        return true;
    }
    let i = (v.id - 1) as usize;
    if 0 < marks[i] {
        return true;
    }
    let (give, take) = parts(v.supply);
    gives[i] = give;
    takes[i] = take;
    marks[i] = 1;
    nodes < v.id || odd
}

// A line, where it is an a line.
fn store_arc(
    l: Line,
    nodes: u64,
    k: u64,
    bad: bool,
    starts: &mut [u64; 64],
    ends: &mut [u64; 64],
    ceilings: &mut [u64; 64],
    costs: &mut [i64; 64],
) -> bool
    requires { Small (Some l) }
    ensures { (arcs : List ArcLine) → (0 < length (arc_in (Some l)) → length arcs ≡ k) →
        ArcsRead nodes arcs bad starts.old ends.old ceilings.old costs.old →
        ArcsRead nodes (arcs ++ arc_in (Some l)) result starts.new ends.new ceilings.new costs.new }
{
    match l {
        Line::Arc { line } => put_arc(nodes, k, bad, line, starts, ends, ceilings, costs),
        Line::Comment | Line::Problem { .. } | Line::Node { .. } => bad,
    }
}

// A line, where it is an n line.
fn store_node(
    l: Line,
    nodes: u64,
    odd: bool,
    gives: &mut [u64; 32],
    takes: &mut [u64; 32],
    marks: &mut [u64; 32],
) -> bool
    requires { Small (Some l) }
    ensures { (sup : List NodeLine) → NodesRead nodes sup odd gives.old takes.old marks.old →
        NodesRead nodes (sup ++ node_in (Some l)) result gives.new takes.new marks.new }
{
    match l {
        Line::Node { line } => put_node(nodes, odd, line, gives, takes, marks),
        Line::Comment | Line::Problem { .. } | Line::Arc { .. } => odd,
    }
}

// The whole file: its counts and flags with its lines in the cells, or the line that is not of the form.
pub fn read_file(
    s: &[u8],
    starts: &mut [u64; 64],
    ends: &mut [u64; 64],
    ceilings: &mut [u64; 64],
    costs: &mut [i64; 64],
    gives: &mut [u64; 32],
    takes: &mut [u64; 32],
    marks: &mut [u64; 32],
) -> Result<Reading, Refusal>
    requires arcs_read { ArcsRead 0 [] false starts.old ends.old ceilings.old costs.old }
    requires nodes_read { NodesRead 0 [] false gives.old takes.old marks.old }
    ensures { ReadIs s.now result starts.new ends.new ceilings.new costs.new
        gives.new takes.new marks.new }
{
    let mut t = Tally {
        opened: false,
        nodes: 0,
        said: 0,
        arcs: 0,
    };
    let mut at: usize = 0;
    let mut line: usize = 1;
    let mut odd = false;
    let mut bad = false;
    loop {
        let wrong = Cause::Line.at(line as u64);
        let e = line_end(s, at);
        if s.len() <= e {
            if at < e {
                return Err(wrong);
            }
            let c = at_end(t, line)?;
            return Ok(Reading {
                nodes: c.nodes,
                arcs: c.arcs,
                odd,
                bad,
            });
        }
        let Some(l) = read_line(&s[at..e]) else {
            return Err(wrong);
        };
        let Some(tally) = with_line(t, l) else {
            return Err(wrong);
        };
        odd = store_node(l, t.nodes, odd, gives, takes, marks);
        bad = store_arc(l, t.nodes, t.arcs, bad, starts, ends, ceilings, costs);
        t = tally;
        at = e + 1;
        line += 1;
    }
}

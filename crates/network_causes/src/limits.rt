// What is outside the limits of refusal 30, where the file, the arc and the table tell it: the first that is, in the order of the refusal's tests.
// The Python package has the same causes in the same words (dimacs.py).
use csv_case::case::read_entries;
use csv_case::cells::entry_cells;
use csv_print::magnitude;
use dimacs::line::{ArcNumbers, Line, NodeNumbers, read_line};
use file_io::message::{say, say_name, say_number, say_with};
use file_io::place::next;
use numbers::read_short;
use std::io;

// Does a byte end a line? What a file's last LF leaves behind it is an empty line, and no line of the form.
fn ends_line(byte: &u8) -> bool {
    *byte == b'\n'
}

// The counts of nodes and of arcs that the p line says; 0 where there is none.
#[derive(Drop)]
struct Counts {
    nodes: u64,
    arcs: u64,
}

fn counts_of(bytes: &[u8]) -> Counts {
    for text in bytes.split(ends_line) {
        if let Some(Line::Problem { nodes, arcs }) = read_line(text) {
            return Counts { nodes, arcs };
        }
    }
    Counts { nodes: 0, arcs: 0 }
}

// Is it an n line for a node?
fn is_node(line: Option<Line>, id: u64) -> bool {
    match line {
        Some(Line::Node { line }) => line.id == id,
        _ => false,
    }
}

// How many n lines a node has.
fn lines_for(bytes: &[u8], id: u64) -> u64 {
    bytes
        .split(ends_line)
        .filter(|text| is_node(read_line(text), id))
        .count() as u64
}

// Says how many arcs the p line says.
pub fn say_said(err: &impl Print, bytes: &[u8]) -> io::Result<()> {
    let counts = counts_of(bytes);
    say_number(err, counts.arcs)
}

// Is it no node?
fn no_node(id: u64, nodes: u64) -> bool {
    (id < 1) | (nodes < id)
}

// Says the cause of an n line; false where it is within the limits.
fn say_node(err: &impl Print, bytes: &[u8], nodes: u64, id: u64) -> io::Result<bool> {
    if no_node(id, nodes) {
        say_with(
            err,
            b"an n line for node ",
            id,
            b"; nodes are numbered 1 to ",
        )?;
        say_number(err, nodes)?;
        return Ok(true);
    }
    if 1 < lines_for(bytes, id) {
        say_with(err, b"two n lines for node ", id, b"")?;
        return Ok(true);
    }
    Ok(false)
}

fn say_arc_node(err: &impl Print, arc: u64, id: u64, nodes: u64) -> io::Result<()> {
    say_with(err, b"arc ", arc, b", at node ")?;
    say_with(err, b"", id, b"; nodes are numbered 1 to ")?;
    say_number(err, nodes)
}

// The ends of an arc.
fn say_ends(err: &impl Print, arc: u64, nodes: u64, a: ArcNumbers) -> io::Result<bool> {
    let start = a.start;
    let end = a.end;
    if no_node(start, nodes) {
        say_arc_node(err, arc, start, nodes)?;
        return Ok(true);
    }
    if no_node(end, nodes) {
        say_arc_node(err, arc, end, nodes)?;
        return Ok(true);
    }
    if start == end {
        say_with(err, b"arc ", arc, b", from node ")?;
        say_with(err, b"", start, b" to itself")?;
        return Ok(true);
    }
    Ok(false)
}

// The lower bound, the ceiling and the cost of an arc.
fn say_amounts(err: &impl Print, arc: u64, a: ArcNumbers) -> io::Result<bool> {
    if 0 < a.low {
        say_with(err, b"arc ", arc, b", with a lower bound of ")?;
        say_with(err, b"", a.low, b"; lower bounds are 0")?;
        return Ok(true);
    }
    if 4000 < a.ceiling {
        say_with(err, b"arc ", arc, b", with a ceiling of ")?;
        say_with(err, b"", a.ceiling, b"; ceilings go up to 4,000")?;
        return Ok(true);
    }
    let cost = magnitude(a.cost);
    if 1_000_000 < cost {
        say_with(err, b"arc ", arc, b", with a cost of ")?;
        if a.cost < 0 {
            say(err, b"-")?;
        }
        say_with(err, b"", cost, b"; costs are from -1,000,000 to 1,000,000")?;
        return Ok(true);
    }
    Ok(false)
}

// Says the cause of a line, the last of so many arcs; false where it is within the limits.
fn say_line(
    err: &impl Print,
    bytes: &[u8],
    nodes: u64,
    arc: u64,
    line: Option<Line>,
) -> io::Result<bool> {
    match line {
        Some(Line::Node { line }) => say_node(err, bytes, nodes, line.id),
        Some(Line::Arc { line }) => {
            if say_ends(err, arc, nodes, line)? {
                return Ok(true);
            }
            say_amounts(err, arc, line)
        }
        _ => Ok(false),
    }
}

// The count of arcs with a line.
fn arcs_after(arcs: u64, line: Option<Line>) -> u64 {
    match line {
        Some(Line::Arc { line: _ }) => next(arcs),
        _ => arcs,
    }
}

// The first line that is out of the limits.
fn say_lines(err: &impl Print, bytes: &[u8], nodes: u64) -> io::Result<bool> {
    let mut arcs: u64 = 0;
    for text in bytes.split(ends_line) {
        let line = read_line(text);
        arcs = arcs_after(arcs, line);
        if say_line(err, bytes, nodes, arcs, line)? {
            return Ok(true);
        }
    }
    Ok(false)
}

// What a node has, and what is taken there.
#[derive(Drop)]
struct Amount {
    has: u64,
    takes: u64,
}

fn amount_after(a: Amount, id: u64, line: Option<Line>) -> Amount {
    match line {
        Some(
            Line::Node {
                line: NodeNumbers { id: node, supply },
            },
        ) => {
            let size = magnitude(supply);
            if node != id {
                return a;
            }
            if supply < 0 {
                return Amount {
                    has: a.has,
                    takes: a.takes.saturating_add(size),
                };
            }
            Amount {
                has: a.has.saturating_add(size),
                takes: a.takes,
            }
        }
        Some(Line::Arc { line }) => {
            if line.end != id {
                return a;
            }
            Amount {
                has: a.has.saturating_add(line.ceiling),
                takes: a.takes,
            }
        }
        _ => a,
    }
}

// A node's supply and the ceilings of the arcs into it, 0 where they come to less.
fn amount_of(bytes: &[u8], id: u64) -> u64 {
    let mut amount = Amount { has: 0, takes: 0 };
    for text in bytes.split(ends_line) {
        amount = amount_after(amount, id, read_line(text));
    }
    amount.has.saturating_sub(amount.takes)
}

// The first of at most 32 nodes whose amount is above 4,000.
fn say_nodes(err: &impl Print, bytes: &[u8], nodes: u64) -> io::Result<bool> {
    for i in 0..nodes {
        let id = next(i);
        let amount = amount_of(bytes, id);
        if 4000 < amount {
            say_with(
                err,
                b"node ",
                id,
                b", whose supply and the ceilings of the arcs into it come to ",
            )?;
            say_with(err, b"", amount, b"; amounts go up to 4,000")?;
            return Ok(true);
        }
    }
    Ok(false)
}

// The ceiling of an arc by its place from 1.
fn ceiling_in(line: Option<Line>) -> u64 {
    match line {
        Some(Line::Arc { line }) => line.ceiling,
        _ => 0,
    }
}

fn ceiling_of(bytes: &[u8], place: u64) -> u64 {
    let mut arcs: u64 = 0;
    for text in bytes.split(ends_line) {
        let line = read_line(text);
        arcs = arcs_after(arcs, line);
        if arcs == place {
            return ceiling_in(line);
        }
    }
    0
}

// The first of the table's entries that is above 1,000,000,000; cells after them hold 0.
fn say_entries(err: &impl Print, entries: &[u64]) -> io::Result<()> {
    for (i, &entry) in entries.iter().enumerate() {
        if 1_000_000_000 < entry {
            return say_with(
                err,
                b"the table's entry for a flow of ",
                i as u64,
                b", above 1,000,000,000",
            );
        }
    }
    Ok(())
}

// The table of an arc.
fn say_table(err: &impl Print, place: u64, ceiling: u64, table: &[u8]) -> io::Result<()> {
    let mut entries = entry_cells();
    let Ok(count) = read_entries(table, &mut entries) else {
        return Ok(());
    };
    if count as u64 != next(ceiling) {
        say_with(err, b"a table of ", count as u64, b" entries for arc ")?;
        say_with(err, b"", place, b", whose ceiling is ")?;
        return say_with(err, b"", ceiling, b"; it wants one for each flow from 0");
    }
    say_entries(err, &entries)
}

fn place_of(arc: &[u8]) -> u64 {
    read_short(arc).unwrap_or(0)
}

// The arc that is named, then its table.
fn say_named(
    err: &impl Print,
    bytes: &[u8],
    arcs: u64,
    arc: &[u8],
    table: &[u8],
) -> io::Result<()> {
    let place = place_of(arc);
    if (place < 1) | (arcs < place) {
        say(err, b"arc ")?;
        say_name(err, arc)?;
        return say_with(err, b" as the named one; the file has ", arcs, b"");
    }
    say_table(err, place, ceiling_of(bytes, place), table)
}

// Says what is out of the limits.
pub fn say_limits_cause(
    err: &impl Print,
    bytes: &[u8],
    arc: &[u8],
    table: &[u8],
) -> io::Result<()> {
    let counts = counts_of(bytes);
    let nodes = counts.nodes;
    let arcs = counts.arcs;
    if (32 < nodes) | (64 < arcs) {
        say_with(err, b"a network of ", nodes, b" nodes and ")?;
        return say_with(err, b"", arcs, b" arcs; there are at most 32 and 64");
    }
    if say_lines(err, bytes, nodes)? {
        return Ok(());
    }
    if say_nodes(err, bytes, nodes)? {
        return Ok(());
    }
    say_named(err, bytes, arcs, arc, table)
}

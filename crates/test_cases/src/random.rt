// Random small cases, the same at each run. Each draw goes on from the number that the generator stands at.
use test_draws::{after, below};
use test_referee::bench::{
    CEILINGS, COSTS, DEMANDS, SOURCES, SPARE, SUPPLIES, Sizes, TABLE, WAYS, ZERO,
};
use test_referee::cells::{add, at, cell, copy, put};
use test_referee::paper::span_of;

// A number below the bound; 0, and nothing drawn, where the bound is 0.
fn draw(seed: &mut u64, bound: u64) -> u64 {
    if bound == 0 {
        return 0;
    }
    *seed = after(*seed);
    below(*seed, bound)
}

// Numbers from low on, below low + most.
#[derive(Clone, Copy, PartialEq, Eq, Debug, Drop)]
struct Range {
    low: u64,
    most: u64,
}

// Draws as many cells as `cells`, from start on: of a range, or of a shorter one that begins there. Where `most` is 0 each is low.
fn draw_cells(seed: &mut u64, b: &mut [u64], start: u64, cells: u64, r: Range) {
    let width = draw(seed, r.most);
    let bound = if 0 < r.most {
        width.saturating_add(1)
    } else {
        0
    };
    for k in 0..cells {
        let v = draw(seed, bound);
        put(b, start.saturating_add(k), r.low.saturating_add(v));
    }
}

// The shape of a table.
#[derive(Clone, Copy, PartialEq, Eq, Debug, Drop)]
enum Shape {
    Few,
    Many,
    HighConcave,
    Steps,
    Rounded,
    Concave,
}

fn draw_shape(seed: &mut u64) -> Shape {
    match draw(seed, 8) {
        0 => Shape::Few,
        1 => Shape::Many,
        2 => Shape::HighConcave,
        3 | 4 => Shape::Steps,
        5 => Shape::Rounded,
        _ => Shape::Concave,
    }
}

// Draws a concave table from an entry on: the slope, kept 100 higher, never rises.
fn draw_concave(seed: &mut u64, b: &mut [u64], first: u64, cells: u64) {
    let mut entry = first;
    let mut slope = draw(seed, 10).saturating_add(98);
    for y in 0..cells {
        put(b, TABLE.saturating_add(y), entry);
        entry = entry.saturating_add(slope).saturating_sub(100);
        slope = slope.saturating_sub(draw(seed, 3));
    }
}

// The entry after one of a table of steps: it stays, or a fixed charge comes on top of it, or some of it falls away.
fn stepped(seed: &mut u64, entry: u64) -> u64 {
    let kind = draw(seed, 6);
    let by = draw(seed, 15);
    match kind {
        0 => entry.saturating_add(by),
        1 => entry.saturating_sub(by),
        _ => entry,
    }
}

fn draw_steps(seed: &mut u64, b: &mut [u64], cells: u64) {
    let mut entry: u64 = 60;
    for y in 0..cells {
        put(b, TABLE.saturating_add(y), entry);
        entry = stepped(seed, entry);
    }
}

// Makes each entry one or two higher, or leaves it: a curve rounded to whole numbers.
fn round_table(seed: &mut u64, b: &mut [u64], cells: u64) {
    for y in 0..cells {
        add(b, TABLE.saturating_add(y), draw(seed, 3));
    }
}

// Draws a table of any shape: few values, falling and rising, steps, rounded, concave.
fn draw_table(seed: &mut u64, b: &mut [u64], cells: u64) {
    match draw_shape(seed) {
        Shape::Few => draw_cells(seed, b, TABLE, cells, Range { low: 0, most: 3 }),
        Shape::Many => draw_cells(seed, b, TABLE, cells, Range { low: 0, most: 40 }),
        Shape::HighConcave => draw_concave(seed, b, 999_999_900, cells),
        Shape::Steps => draw_steps(seed, b, cells),
        Shape::Rounded => {
            draw_concave(seed, b, 60, cells);
            round_table(seed, b, cells);
        }
        Shape::Concave => draw_concave(seed, b, 60, cells),
    }
}

// Unit costs: of the whole range, rebates and charges of a few values, or charges alone.
fn draw_costs(seed: &mut u64) -> Range {
    match draw(seed, 4) {
        0 => Range {
            low: ZERO - 1_000_000,
            most: 2_000_001,
        },
        1 | 2 => Range {
            low: ZERO - 3,
            most: 7,
        },
        _ => Range { low: ZERO, most: 6 },
    }
}

// Ceilings: wide, or 0 to 9 or less, or 0 to 3 or less.
fn ceilings_of(kind: u64) -> Range {
    match kind {
        0..=2 => Range {
            low: 4_000,
            most: 0,
        },
        3 | 4 => Range { low: 0, most: 10 },
        _ => Range { low: 0, most: 4 },
    }
}

// Draws unit costs and ceilings. One lane gets a ceiling of 4,000, or is closed.
fn draw_lanes(seed: &mut u64, b: &mut [u64], lanes: u64) {
    let costs = draw_costs(seed);
    draw_cells(seed, b, COSTS, lanes, costs);
    let kind = draw(seed, 8);
    draw_cells(seed, b, CEILINGS, lanes, ceilings_of(kind));
    let odd = CEILINGS.saturating_add(draw(seed, lanes));
    match kind {
        3 | 5 => put(b, odd, 4_000),
        0 | 6 => put(b, odd, 0),
        _ => put(b, SPARE, 0),
    }
}

fn draw_amounts(seed: &mut u64, b: &mut [u64], m: u64, n: u64) {
    let low = draw(seed, 2);
    draw_cells(seed, b, DEMANDS, n, Range { low, most: 6 });
    draw_cells(seed, b, SUPPLIES, m, Range { low: 0, most: 4 });
    draw_cells(seed, b, SUPPLIES, 2, Range { low, most: 20 });
}

// A least run up to a plant's supply, that supply itself, or one more.
fn draw_run(seed: &mut u64, supply: u64) -> u64 {
    let kind = draw(seed, 8);
    let some = draw(seed, supply.saturating_add(1));
    match kind {
        0 => supply.saturating_add(1),
        1 => supply,
        _ => some,
    }
}

// Draws the least runs: none, any, or both together d.
fn draw_runs(seed: &mut u64, a_1: u64, a_2: u64, made: u64) -> [u64; 2] {
    let kind = draw(seed, 8);
    if kind < 4 {
        return [0, 0];
    }
    let first = draw_run(seed, a_1);
    let second = draw_run(seed, a_2);
    if kind == 4 {
        return [first, made.saturating_sub(first)];
    }
    [first, second]
}

// Draws least runs, table and the lengths of the slices lent: what is needed, or some more.
fn draw_rest(seed: &mut u64, b: &mut [u64], m: u64, n: u64, lanes: u64) {
    let a_1 = at(b, SUPPLIES);
    let entries = a_1.saturating_add(1);
    let mut z = Sizes {
        m,
        n,
        costs: lanes,
        supplies: m,
        demands: n,
        table: entries,
        plan: 0,
        splits: 0,
        freights: 0,
        ceilings: lanes,
        run1: 0,
        run2: 0,
    };
    let made = span_of(z, b).made;
    let [run1, run2] = draw_runs(seed, a_1, at(b, SUPPLIES + 1), made);
    z.run1 = run1;
    z.run2 = run2;
    let width = span_of(z, b).width;
    draw_table(seed, b, entries);
    let plan = lanes.saturating_add(draw(seed, 3));
    let splits = width.saturating_add(draw(seed, 3));
    let freights = width.saturating_add(draw(seed, 3));
    let sizes = [
        m, n, lanes, m, n, entries, plan, splits, freights, lanes, run1, run2,
    ];
    copy(&sizes, b, SOURCES);
}

// A case with no more than balance and shape of the table left open.
fn draw_case(seed: &mut u64, b: &mut [u64]) {
    let m = draw(seed, 5).saturating_add(2).min(4);
    let n = draw(seed, 5).saturating_add(1).min(3);
    let lanes = m.saturating_mul(n);
    draw_lanes(seed, b, lanes);
    draw_amounts(seed, b, m, n);
    draw_rest(seed, b, m, n, lanes);
}

// Spoils a case by one of 14 ways. A way has six cells: the first of the cells to choose from, how many there are, and four numbers to choose from.
fn spoil(seed: &mut u64, b: &mut [u64]) {
    let row = WAYS.saturating_add(draw(seed, 14).saturating_mul(6));
    let k = draw(seed, cell(b, row, 1));
    let pick = draw(seed, 4);
    let value = cell(b, row, pick.saturating_add(2));
    put(b, at(b, row).saturating_add(k), value);
}

// Draws the next case. Half of them are spoiled, some of those twice.
pub fn next_case(seed: &mut u64, b: &mut [u64]) {
    draw_case(seed, b);
    let k = draw(seed, 8);
    if 3 < k {
        spoil(seed, b);
    }
    if 6 < k {
        spoil(seed, b);
    }
}

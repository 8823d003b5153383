// All tables between two bounds: for each its least total, and the splits that have it. A split's level is that of its freight; an output that is
// no split has none.
use test_draws::rows::next_row;
use test_draws::slices::{at, at_or};

// The level of each output.
pub type Levels = [Option<u64>; 8];

// The smallest and the largest least total, as levels, and how many tables there are; and the splits that are the cheapest with one of them.
#[derive(Clone, Copy, PartialEq, Eq, Debug, Drop)]
pub struct Reached {
    pub smallest: u64,
    pub largest: u64,
    pub tables: u64,
    pub marks: [bool; 8],
}

// The total at an output, if it is a split.
fn total(level: Option<u64>, low: u64, more: u64) -> Option<u64> {
    Some(level?.saturating_add(low.saturating_add(more)))
}

// The least total with the table low + more.
fn least(levels: &Levels, low: &[u64], more: &[u64; 8]) -> u64 {
    let mut best = u64::MAX;
    for (y, level) in levels.iter().enumerate() {
        if let Some(sum) = total(*level, at(low, y), at(more, y)) {
            best = best.min(sum);
        }
    }
    best
}

// Marks the splits that have this total.
fn mark(levels: &Levels, low: &[u64], more: &[u64; 8], best: u64, marks: &mut [bool; 8]) {
    for (y, mark) in marks.iter_mut().enumerate() {
        if total(levels[y], at(low, y), at(more, y)) == Some(best) {
            *mark = true;
        }
    }
}

// How far an entry can be raised: not at all at an output that is no split.
fn room(level: Option<u64>, low: u64, high: u64) -> u64 {
    match level {
        Some(_) => high.saturating_sub(low),
        None => 0,
    }
}

// Tries every table, 6,561 at most.
pub fn try_tables(levels: &Levels, low: &[u64], high: &[u64]) -> Reached {
    let mut more = [0u64; 8];
    let mut marks = [false; 8];
    let mut smallest = u64::MAX;
    let mut largest: u64 = 0;
    let mut tables: u64 = 0;
    for _ in 0..6_561 {
        let best = least(levels, low, &more);
        mark(levels, low, &more, best, &mut marks);
        smallest = smallest.min(best);
        largest = largest.max(best);
        tables = tables.saturating_add(1);
        if !next_row(
            &mut more,
            |y| room(at_or(levels, y, None), at(low, y), at(high, y)),
        ) {
            break;
        }
    }
    Reached {
        smallest,
        largest,
        tables,
        marks,
    }
}

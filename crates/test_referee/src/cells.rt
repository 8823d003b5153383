// Cells of a slice, read and written within its bounds, and sums that stay within 64 bits. A cell is named by a number, as the table of fixed cases
// and a spoiled case name it.
use crate::bench::ZERO;
use test_draws::slices;

// No number.
// Stays: a cell of the bench is one number, and the table of fixed cases writes this one by a word.
pub const NONE: u64 = u64::MAX;

// The cell k, or 0 past the end.
pub fn at(s: &[u64], k: u64) -> u64 {
    slices::at(s, k as usize)
}

// Writes the cell k; past the end nothing is written.
pub fn put(s: &mut [u64], k: u64, v: u64) {
    if let Some(cell) = s.get_mut(k as usize) {
        *cell = v;
    }
}

// Adds to the cell k, up to the largest number.
pub fn add(s: &mut [u64], k: u64, by: u64) {
    put(s, k, at(s, k).saturating_add(by));
}

// The cell k after start, or 0 past the end.
pub fn cell(s: &[u64], start: u64, k: u64) -> u64 {
    at(s, start.saturating_add(k))
}

// The cells from start on, as many as `cells`; none where they do not all lie in s.
pub fn part(s: &[u64], start: u64, cells: u64) -> &[u64] {
    let to = start.saturating_add(cells);
    if (s.len() as u64) < to {
        return &s[0..0];
    }
    &s[start as usize..to as usize]
}

// Copies a slice into another from the cell start on.
pub fn copy(from: &[u64], to: &mut [u64], start: u64) {
    for (k, v) in from.iter().enumerate() {
        put(to, start.saturating_add(k as u64), *v);
    }
}

// Copies as many cells as `cells` within a slice.
pub fn transfer(s: &mut [u64], from: u64, cells: u64, to: u64) {
    for k in 0..cells {
        let v = cell(s, from, k);
        put(s, to.saturating_add(k), v);
    }
}

// Writes as many cells as `cells`, from start on: the first number, and each `fall` less than the one before.
pub fn fill(s: &mut [u64], start: u64, cells: u64, first: u64, fall: u64) {
    let mut v = first;
    for k in 0..cells {
        put(s, start.saturating_add(k), v);
        v = v.saturating_sub(fall);
    }
}

// The sum of as many cells as `cells`, from start on, each a step after the one before.
pub fn line(s: &[u64], start: u64, step: u64, cells: u64) -> u64 {
    let mut sum: u64 = 0;
    let mut place = start;
    for _ in 0..cells {
        sum = sum.saturating_add(at(s, place));
        place = place.saturating_add(step);
    }
    sum
}

// A freight with amount times unit cost added, both signed as cells are.
fn charged(sum: u64, amount: u64, cost: u64) -> u64 {
    if ZERO <= cost {
        return sum.saturating_add(amount.saturating_mul(cost - ZERO));
    }
    sum.saturating_sub(amount.saturating_mul(ZERO - cost))
}

// The sum of amount times unit cost over all lanes, as a cell.
pub fn freight(amounts: &[u64], costs: &[u64]) -> u64 {
    amounts
        .iter()
        .zip(costs)
        .fold(ZERO, |sum, (amount, cost)| charged(sum, *amount, *cost))
}

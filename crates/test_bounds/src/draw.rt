// Draws the parts of a small case.
use test_draws::slices::at;
use test_draws::{below, draw_each};

// Unit costs, rebates among them.
const RATES: [i64; 16] = [-4, -1, 0, 1, 1, 2, 2, 3, 3, 4, 5, 5, 6, 7, 8, 9];

// Draws unit costs, and gives the generator's number after them.
pub fn draw_costs(seed: u64, to: &mut [i64]) -> u64 {
    draw_each(seed, to, |_, x| RATES[(x / 8 % 16) as usize])
}

// Writes each number with 0 to 2 on top, less `lower`.
pub fn draw_above(seed: u64, lower: u64, from: &[u64], to: &mut [u64]) {
    draw_each(seed, to, |k, x| {
        at(from, k)
            .saturating_add(below(x, 3))
            .saturating_sub(lower)
    });
}

// Draws the parts of a case.
use test_draws::{after, below, draw_each};

// Unit costs of either end, and rebates among others.
const ENDS: [i64; 2] = [-1_000_000, 1_000_000];

const MIXED: [i64; 16] = [
    -1_000_000, -731_059, -400_000, -57_721, -2, 0, 1, 3, 999, 31_415, 271_828, 400_000, 577_215,
    731_058, 999_999, 1_000_000,
];

// The kinds of unit costs: up to 1,000,000, 1 to 5, 0 or 1, one of the two ends, or one of sixteen.
#[derive(Clone, Copy, PartialEq, Eq, Debug, Drop)]
pub enum Costs {
    Wide,
    Small,
    Bit,
    End,
    Mixed,
}

pub fn costs_of(k: u64) -> Costs {
    match k {
        0 => Costs::Wide,
        1 => Costs::Small,
        2 => Costs::Bit,
        3 => Costs::End,
        _ => Costs::Mixed,
    }
}

fn cost(kind: Costs, x: u64) -> i64 {
    match kind {
        Costs::Wide => (x % 1_000_001) as i64,
        Costs::Small => (x / 8 % 5 + 1) as i64,
        Costs::Bit => (x / 8 % 2) as i64,
        Costs::End => ENDS[(x / 8 % 2) as usize],
        Costs::Mixed => MIXED[(x / 8 % 16) as usize],
    }
}

// Draws unit costs, and gives the generator's number after them.
pub fn draw_costs(seed: u64, kind: Costs, to: &mut [i64]) -> u64 {
    draw_each(seed, to, |_, x| cost(kind, x))
}

// The sum of some cells.
pub fn sum(s: &[u64]) -> u64 {
    s.iter().fold(0u64, |total, x| total.saturating_add(*x))
}

// What one of some terminals gets of what is left: all where it is the last, else up to twice its share.
fn share(x: u64, others: u64, left: u64) -> u64 {
    match others {
        0 => 0,
        1 => left,
        _ => {
            let part = left / others;
            left.min(below(x, part.saturating_add(part).saturating_add(1)))
        }
    }
}

// Deals an amount to the first n terminals.
pub fn deal(seed: u64, n: u64, amount: u64, to: &mut [u64]) -> u64 {
    let mut x = seed;
    let mut left = amount;
    for (k, cell) in to.iter_mut().enumerate() {
        x = after(x);
        let part = share(x, n.saturating_sub(k as u64), left);
        *cell = part;
        left = left.saturating_sub(part);
    }
    x
}

// Random calls on a working case, from a seed.
use test_draws::{after, below};

// What a call is to do, by the places that it names from 1.
#[derive(Clone, Copy, PartialEq, Eq, Debug, Drop)]
pub enum Call {
    Demand {
        terminal: usize,
        amount: u64,
    },
    Supply {
        source: usize,
        amount: u64,
    },
    Cost {
        source: usize,
        terminal: usize,
        cost: i64,
    },
    Entry {
        split: usize,
        entry: u64,
    },
    SetMark(usize),
    GoBack(usize),
}

// A supply or a demand below the bound, now and then one above the limit.
pub fn amount_of(bound: u64, x: u64, y: u64) -> u64 {
    if below(y, 16) == 0 {
        return 4_001;
    }
    below(x, bound)
}

// An entry below 400, now and then one above the limit.
pub fn entry_of(x: u64, y: u64) -> u64 {
    if below(y, 16) == 0 {
        return 1_000_000_001;
    }
    below(x, 400)
}

const COSTS: [i64; 16] = [-20, -9, -5, -2, -1, 0, 0, 1, 1, 2, 3, 5, 7, 11, 20, 300];

pub fn small_cost(x: u64) -> i64 {
    COSTS[(x / 8 % 16) as usize]
}

// A unit cost, now and then one outside the limits.
pub fn cost_of(x: u64, y: u64) -> i64 {
    match below(y, 16) {
        0 => -1_000_001,
        1 => 1_000_001,
        _ => small_cost(x),
    }
}

// The source, terminal, split or mark that is meant, now and then one that is not there.
fn index_of(bound: u64, x: u64, y: u64) -> usize {
    if below(y, 16) == 2 {
        return 9;
    }
    below(x, bound) as usize
}

// A call on a case of 3 sources and 2 terminals.
pub fn drawn(seed: u64) -> Call {
    let s1 = after(seed);
    let s2 = after(s1);
    let s3 = after(s2);
    let s4 = after(s3);
    match below(s1, 6) {
        0 => Call::Demand {
            terminal: index_of(3, s2, s4),
            amount: amount_of(9, s3, s4),
        },
        1 => Call::Supply {
            source: index_of(4, s2, s4),
            amount: amount_of(12, s3, s4),
        },
        2 => Call::Cost {
            source: index_of(4, s2, s4),
            terminal: below(s3, 3) as usize,
            cost: cost_of(s2, s4),
        },
        3 => Call::Entry {
            split: index_of(8, s2, s4),
            entry: entry_of(s3, s4),
        },
        4 => Call::SetMark(index_of(5, s2, s4)),
        _ => Call::GoBack(index_of(5, s2, s4)),
    }
}

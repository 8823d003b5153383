// Random cases of 2 to 4 sources and 1 to 3 terminals, and random calls by roles, from a seed.
use test_compare::draws::{Call, amount_of, cost_of, entry_of};
use test_draws::{after, below};

// A call, and the number of the role that makes it.
#[derive(Clone, Copy, PartialEq, Eq, Debug, Drop)]
pub struct Request {
    pub role: usize,
    pub call: Call,
}

// The k-th number after a seed.
pub fn drawn(seed: u64, k: u64) -> u64 {
    after(after(seed % 1_000_000 + k % 1_000 * 7_919))
}

// The planner, more often than all others.
fn role_of(x: u64) -> usize {
    match below(x, 12) {
        k if k < 6 => k as usize,
        _ => 1,
    }
}

// A call, whose source, terminal, split or mark is now and then one that is not there.
fn call_of(seed: u64) -> Call {
    let x = drawn(seed, 3);
    let place = below(x, 6) as usize;
    let far = below(x, 10) as usize;
    let amount = amount_of(9, drawn(seed, 5), drawn(seed, 6));
    match below(drawn(seed, 1), 6) {
        0 => Call::Demand {
            terminal: place,
            amount,
        },
        1 => Call::Supply {
            source: place,
            amount,
        },
        2 => Call::Cost {
            source: place,
            terminal: below(drawn(seed, 4), 5) as usize,
            cost: cost_of(drawn(seed, 7), drawn(seed, 8)),
        },
        3 => Call::Entry {
            split: far,
            entry: entry_of(drawn(seed, 5), drawn(seed, 6)),
        },
        4 => Call::SetMark(far),
        _ => Call::GoBack(far),
    }
}

pub fn next_request(seed: u64) -> Request {
    Request {
        role: role_of(drawn(seed, 2)),
        call: call_of(seed),
    }
}

// The refusals, judged as the table of the scope says, without the planner's code.
use crate::bench::{BEST, CEILINGS, COSTS, DEMANDS, ROOM, SUPPLIES, Sizes, TABLE, ZERO};
use crate::cells::{NONE, at, line, part};

// All demands, what must leave depots and plants, d, ℓ, u and how many splits there are.
#[derive(Clone, Copy, PartialEq, Eq, Debug, Drop)]
pub struct Span {
    pub all: u64,
    pub leaves: u64,
    pub made: u64,
    pub first: u64,
    pub last: u64,
    pub width: u64,
}

// The splits within supplies and least runs, of which there are none where d is below both runs or above a_1 + a_2.
pub fn span_of(z: Sizes, b: &[u64]) -> Span {
    let all = line(b, DEMANDS, 1, z.demands);
    let stock = line(b, SUPPLIES + 2, 1, z.supplies.saturating_sub(2));
    let leaves = stock.saturating_add(z.run1.saturating_add(z.run2));
    let made = all.saturating_sub(stock);
    let first = z.run1.max(made.saturating_sub(at(b, SUPPLIES + 1)));
    let last = at(b, SUPPLIES).min(made.saturating_sub(z.run2));
    let width = last.saturating_add(1).saturating_sub(first);
    Span {
        all,
        leaves,
        made,
        first,
        last,
        width: if leaves <= all { width } else { 0 },
    }
}

// The least and the greatest split that have a plan, and how many have one.
pub fn listed_span(s: Span, b: &[u64]) -> Span {
    let mut found = Span {
        first: NONE,
        last: 0,
        width: 0,
        ..s
    };
    for y in 0..ROOM {
        if at(b, BEST + y) != NONE {
            found.first = found.first.min(y);
            found.last = y;
            found.width = found.width.saturating_add(1);
        }
    }
    found
}

// A refusal's number and place.
// Stays: the papers name a refusal by its number, and the tally counts by it; the planner's own causes are not to be used here.
#[derive(Clone, Copy, PartialEq, Eq, Debug, Drop)]
pub struct Refusal {
    pub number: u64,
    pub place: u64,
}

// What the tests say of a case.
pub type Verdict = Result<(), Refusal>;

fn refuse_if(fails: bool, number: u64, place: u64) -> Verdict {
    if fails {
        Err(Refusal { number, place })
    } else {
        Ok(())
    }
}

// The place, from 0, of the first number below one limit or above the other.
fn first_outside(s: &[u64], low: u64, high: u64) -> Option<u64> {
    let k = s.iter().position(|v| *v < low || high < *v)?;
    Some(k as u64)
}

// A test of numbers: its place is that of the first number outside the limits, counted from 1 after `before`.
fn refuse_outside(s: &[u64], low: u64, high: u64, number: u64, before: u64) -> Verdict {
    match first_outside(s, low, high) {
        Some(k) => Err(Refusal {
            number,
            place: before.saturating_add(k).saturating_add(1),
        }),
        None => Ok(()),
    }
}

// Tests 1 to 3.
fn judge_form(z: Sizes) -> Verdict {
    refuse_if(z.m < 2 || 32 < z.m, 1, 0)?;
    refuse_if(z.n < 1 || 64 < z.n, 2, 0)?;
    let lanes = z.m.saturating_mul(z.n);
    refuse_if(
        z.supplies != z.m || z.demands != z.n || z.costs != lanes,
        3,
        0,
    )
}

// Tests 4, 23, 5 and 26.
fn judge_numbers(z: Sizes, b: &[u64]) -> Verdict {
    refuse_outside(part(b, SUPPLIES, z.supplies), 0, 4_000, 4, 0)?;
    refuse_outside(part(b, DEMANDS, z.demands), 0, 4_000, 4, z.m)?;
    refuse_if(at(b, SUPPLIES) < z.run1, 23, 1)?;
    refuse_if(at(b, SUPPLIES + 1) < z.run2, 23, 2)?;
    let costs = part(b, COSTS, z.costs);
    refuse_outside(costs, ZERO - 1_000_000, ZERO + 1_000_000, 5, 0)?;
    refuse_if(z.ceilings != z.costs, 26, 0)?;
    refuse_outside(part(b, CEILINGS, z.ceilings), 0, 4_000, 26, 0)
}

// Tests 6 to 8.
fn judge_balance(z: Sizes, s: Span, b: &[u64]) -> Verdict {
    let a_1 = at(b, SUPPLIES);
    refuse_if(z.table != a_1.saturating_add(1), 6, 0)?;
    refuse_if(s.all < s.leaves, 7, 0)?;
    refuse_if(a_1.saturating_add(at(b, SUPPLIES + 1)) < s.made, 8, 0)
}

// The tests up to 8, in their order.
pub fn judge(z: Sizes, s: Span, b: &[u64]) -> Verdict {
    judge_form(z)?;
    judge_numbers(z, b)?;
    judge_balance(z, s, b)
}

// Tests 27, 9 and 11, after those before them, where the splits that have a plan are known.
pub fn judge_splits(before: Verdict, z: Sizes, s: Span, b: &[u64]) -> Verdict {
    before?;
    refuse_if(s.width == 0, 27, 0)?;
    let entries = part(b, TABLE.saturating_add(s.first), s.width);
    if let Some(k) = first_outside(entries, 0, 1_000_000_000) {
        return Err(Refusal {
            number: 9,
            place: s.first.saturating_add(k),
        });
    }
    let stops = z.splits < s.width || z.freights < s.width;
    refuse_if(stops || z.plan < z.costs, 11, 0)
}

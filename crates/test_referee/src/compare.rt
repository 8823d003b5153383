// The planner's answer against what is expected, by the least freight at each split.
use crate::bench::{BEST, CEILINGS, COSTS, DEMANDS, FIRSTS, ROOM, SUPPLIES, Sizes, TABLE};
use crate::cells::{NONE, at, cell, freight, line, part};
use crate::money::signed_at;
use crate::paper::{Refusal, Span, Verdict};

// A plan in cells, and how many splits share the least total, which the planner does not say.
#[derive(Clone, Copy, PartialEq, Eq, Debug, Drop)]
pub struct Planned {
    pub split: u64,
    pub total: u64,
    pub freight: u64,
    pub stops: u64,
    pub ties: u64,
}

// An answer.
pub type Told = Result<Planned, Refusal>;

// What an answer is held to, numbered from 1: a refusal's number and place; a plan's split, total and freight; a cell changed by a refusal; rows;
// columns; the amounts' freight; stops; a cell changed after a result; the listing; the answer that the scope gives; a ceiling; the lanes of the
// first cheapest plan.
#[derive(Clone, Copy, PartialEq, Eq, Debug, Drop)]
pub enum Check {
    Number = 1,
    Place,
    Split,
    Total,
    Freight,
    Unchanged,
    Rows,
    Columns,
    Charge,
    Stops,
    Rest,
    Listing,
    Given,
    Ceiling,
    Lanes,
}

// The first check that fails.
pub type Checked = Result<(), Check>;

pub fn hold(right: bool, check: Check) -> Checked {
    if right { Ok(()) } else { Err(check) }
}

// The smallest split of least total, and how many splits have that total.
#[derive(Clone, Copy, PartialEq, Eq, Debug, Drop)]
struct Choice {
    split: u64,
    total: u64,
    ties: u64,
}

fn better(c: Choice, split: u64, total: u64) -> Choice {
    if total < c.total {
        return Choice {
            split,
            total,
            ties: 1,
        };
    }
    Choice {
        ties: c.ties.saturating_add(u64::from(total == c.total)),
        ..c
    }
}

fn choose(best: &[u64], table: &[u64]) -> Choice {
    let mut c = Choice {
        split: 0,
        total: NONE,
        ties: 0,
    };
    for (k, entry) in table.iter().enumerate() {
        c = better(c, k as u64, at(best, k as u64).saturating_add(*entry));
    }
    c
}

// The answer to a judged case whose least freights are known, but for the stops.
pub fn expect(v: Verdict, z: Sizes, b: &[u64]) -> Told {
    v?;
    let c = choose(part(b, BEST, ROOM), part(b, TABLE, z.table));
    Ok(Planned {
        split: c.split,
        total: c.total,
        freight: cell(b, BEST, c.split),
        stops: 0,
        ties: c.ties,
    })
}

// Whether two answers are the same but for the stops.
pub fn check_told(want: Told, got: Told) -> Checked {
    match (want, got) {
        (Ok(p), Ok(q)) => {
            hold(p.split == q.split, Check::Split)?;
            hold(p.total == q.total, Check::Total)?;
            hold(p.freight == q.freight, Check::Freight)
        }
        (Err(p), Err(q)) => {
            hold(p.number == q.number, Check::Number)?;
            hold(p.place == q.place, Check::Place)
        }
        _ => Err(Check::Number),
    }
}

// Whether a split is the first, the last, or one where the slope changes.
pub fn is_stop(s: Span, b: &[u64], y: u64) -> bool {
    let f = cell(b, BEST, y);
    let around = cell(b, BEST - 1, y).saturating_add(cell(b, BEST + 1, y));
    y == s.first || y == s.last || around != f.saturating_add(f)
}

// How many stops there are, if each stands in its place with its freight.
pub fn stops_of(s: Span, b: &[u64], splits: &[u64], freights: &[i64]) -> Option<u64> {
    let mut stops: u64 = 0;
    for y in s.first..s.last.saturating_add(1) {
        if is_stop(s, b, y) {
            if at(splits, stops) != y || signed_at(freights, stops) != Some(cell(b, BEST, y)) {
                return None;
            }
            stops = stops.saturating_add(1);
        }
    }
    Some(stops)
}

// Whether the lines of a plan from line k on have the sums wanted: cells of a line are `step` apart, lines `apart`.
fn lines_hold(
    plan: &[u64],
    wanted: &[u64],
    from: usize,
    apart: u64,
    step: u64,
    cells: u64,
) -> bool {
    wanted.iter().enumerate().skip(from).all(|(k, sum)| line(
        plan,
        apart.saturating_mul(k as u64),
        step,
        cells,
    ) == *sum)
}

// Whether an amount is above what stands in its place in the other slice.
fn any_above(amounts: &[u64], limits: &[u64]) -> bool {
    amounts
        .iter()
        .zip(limits)
        .any(|(amount, limit)| limit < amount)
}

// The plan's sums, its freight, and its ceilings.
pub fn check_amounts(z: Sizes, s: Span, want: Planned, b: &[u64], plan: &[u64]) -> Checked {
    hold(line(plan, 0, 1, z.n) == want.split, Check::Rows)?;
    let rest = s.made.saturating_sub(want.split);
    hold(line(plan, z.n, 1, z.n) == rest, Check::Rows)?;
    let stock = part(b, SUPPLIES, z.m);
    hold(lines_hold(plan, stock, 2, z.n, 1, z.n), Check::Rows)?;
    let demands = part(b, DEMANDS, z.n);
    hold(lines_hold(plan, demands, 0, 1, z.n, z.m), Check::Columns)?;
    let cost = freight(plan, part(b, COSTS, z.costs));
    hold(cost == want.freight, Check::Charge)?;
    hold(
        !any_above(plan, part(b, CEILINGS, z.ceilings)),
        Check::Ceiling,
    )
}

// Of a listed case, the lanes are those of the first cheapest plan. The sums of both plans are alike, so none of the lanes may be above the other's.
pub fn check_lanes(z: Sizes, split: u64, listed: bool, b: &[u64], plan: &[u64]) -> Checked {
    let lanes = if listed { z.costs } else { 0 };
    let first_cheapest = part(b, FIRSTS.saturating_add(split.saturating_mul(12)), lanes);
    hold(!any_above(plan, first_cheapest), Check::Lanes)
}

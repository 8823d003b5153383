// A listing of all plans of a small case, judged from the input: row 1 sums to r_1 up to a_1, row 2 to r_2 up to a_2,
// each depot row to its stock, each column to its demand, no lane above its ceiling. Lanes are gone through in row
// order; at each lane every amount that rows, columns and ceilings leave room for is tried, the smallest first. So of
// the cheapest plans at a split the first listed has the smaller amount at the first lane where it differs from another.
use crate::bench::{AMOUNTS, BEST, CEILINGS, COSTS, DEMANDS, FIRSTS, ROOM, SUPPLIES, Sizes, TIES};
use crate::cells::{NONE, cell, fill, freight, line, part, put, transfer};

// More turns than any case of the trials needs.
const TURNS: u64 = 100_000_000;

// What row i must sum to at least.
fn row_least(z: Sizes, b: &[u64], i: u64) -> u64 {
    match i {
        0 => z.run1,
        1 => z.run2,
        _ => cell(b, SUPPLIES, i),
    }
}

// The least amount from `low` on that a lane can carry beside the lanes before it, if there is one. A row's last lane must take what the row still
// lacks, the last source's lane all that the terminal still lacks.
fn amount_at(z: Sizes, b: &[u64], lane: u64, low: u64) -> Option<u64> {
    let row = lane.checked_div(z.n)?;
    let column = lane.checked_rem(z.n)?;
    let sent = line(
        b,
        AMOUNTS.saturating_add(lane.saturating_sub(column)),
        1,
        column,
    );
    let got = line(b, AMOUNTS.saturating_add(column), z.n, row);
    let row_left = cell(b, SUPPLIES, row).saturating_sub(sent);
    let column_left = cell(b, DEMANDS, column).saturating_sub(got);
    let most = row_left.min(column_left).min(cell(b, CEILINGS, lane));
    let mut least = low;
    if column.saturating_add(1) == z.n {
        least = least.max(row_least(z, b, row).saturating_sub(sent));
    }
    if row.saturating_add(1) == z.m {
        least = least.max(column_left);
    }
    if least <= most { Some(least) } else { None }
}

// Keeps the least freight at the split of a full plan, how many plans have it, and the first of them.
fn keep(z: Sizes, b: &mut [u64]) {
    let split = line(b, AMOUNTS, 1, z.n);
    let cost = freight(part(b, AMOUNTS, z.costs), part(b, COSTS, z.costs));
    let known = cell(b, BEST, split);
    if known < cost {
        return;
    }
    let ties = if known == cost {
        cell(b, TIES, split)
    } else {
        0
    };
    put(b, BEST.saturating_add(split), cost);
    put(b, TIES.saturating_add(split), ties.saturating_add(1));
    if ties == 0 {
        transfer(
            b,
            AMOUNTS,
            z.costs,
            FIRSTS.saturating_add(split.saturating_mul(12)),
        );
    }
}

// Finds the least freight at each split. Answers how many plans there are, if all were looked at.
pub fn list(z: Sizes, b: &mut [u64]) -> Option<u64> {
    fill(b, BEST, ROOM, NONE, 0);
    let mut plans: u64 = 0;
    let mut lane: u64 = 0;
    let mut low: u64 = 0;
    for _ in 0..TURNS {
        let mut next = None;
        if lane == z.costs {
            keep(z, b);
            plans = plans.saturating_add(1);
        } else {
            next = amount_at(z, b, lane, low);
        }
        if let Some(amount) = next {
            put(b, AMOUNTS.saturating_add(lane), amount);
            lane = lane.saturating_add(1);
            low = 0;
        } else if lane == 0 {
            return Some(plans);
        } else {
            lane -= 1;
            low = cell(b, AMOUNTS, lane).saturating_add(1);
        }
    }
    None
}

// The planner on a small case: the freight at each split, and the refusals of the low table.
use crate::brute::Levels;
use lent_case::Case;
use planner::Planned;
use refusal::Refusal;
use test_draws::number::raised;
use test_draws::slices::first;
use test_plans::{Planning, plan};

// A freight or a total above -10^12.
pub fn level(v: i64) -> u64 {
    raised(v, 1_000_000_000_000)
}

// What the planner answers.
pub fn answer(c: &Case) -> Result<Planned, Refusal> {
    let planning: Planning<6, 8> = plan(c);
    planning.answer
}

// The level of the least freight where plant 1 makes y, by a table that is 0 there and as dear as can be elsewhere; none where y is no split.
fn level_at(c: &Case, y: usize) -> Option<u64> {
    let mut table = [1_000_000_000u64; 8];
    table[y % 8] = 0;
    let found = answer(&Case {
        m: c.m,
        n: c.n,
        run1: c.run1,
        run2: c.run2,
        costs: c.costs,
        supplies: c.supplies,
        demands: c.demands,
        ceilings: c.ceilings,
        table: first(&table, c.table.len()),
    });
    match found {
        Ok(plan) if plan.split == y as u64 => Some(level(plan.freight)),
        _ => None,
    }
}

// The level of each output.
pub fn levels(c: &Case) -> Levels {
    let mut levels = [None; 8];
    for (y, level) in levels.iter_mut().enumerate() {
        *level = level_at(c, y);
    }
    levels
}

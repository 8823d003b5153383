// Production cost known between two bounds: which splits can be the cheapest, and what the least total can be.
#![tactic(auto)]

ghost use Rattle.bounds_problem.specs.Answers.{outcome, Answered};
ghost use Rattle.lent_case.specs.Lent.{case_of};

use crate::judge::judge;
use bounds_problem::Known;
use lent_case::Case;
use refusal::Refusal;

mod judge;

// Tells for each split of a case, from the first up, whether it can be the cheapest with entries between its own, the low ones, and the high table.
pub fn possible_splits(low: &Case<'_>, high: &[u64], answers: &mut [u64]) -> Result<Known, Refusal>
    ensures { Answered (case_of low.now 2048 4001 4001) high.now (outcome result) answers.old answers.new }
{
    let mut plan = [0; 2048];
    let mut splits = [0; 4001];
    let mut freights = [0; 4001];
    let planned = planner::plan(low, &mut plan, &mut splits, &mut freights)?;
    judge(low.table, high, &splits, &freights, planned.stops, answers)
}

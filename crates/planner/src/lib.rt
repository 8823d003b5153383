// The two-plant production and freight planner.
#![tactic(auto)]

ghost use Rattle.std.specs.Prelude.{ℕ, length};
ghost use Rattle.lent_case.specs.Lent.{case_of};
ghost use Rattle.planner.specs.inner.Ready.{Weighed};
ghost use Rattle.planner.specs.Answer.{outcome, slices, Answered};

use crate::solve::solve;
use lent_case::Case;
use refusal::Refusal;
use split_range::trial::Trial;
use validation::tests::{form_test, made_of};

pub mod judge;
mod solve;

// What a plan's report says: its split, its total, its freight, and how many stops there are.
#[derive(Clone, Copy, Debug, PartialEq, Eq)]
pub struct Planned {
    pub split: u64,
    pub total: i64,
    pub freight: i64,
    pub stops: usize,
}

// The answer, whether a plan of the simplex passed the check in step 1, and how many stretches of the climb were searched for.
#[derive(Clone, Copy, Debug, PartialEq, Eq)]
pub struct Tried {
    pub answer: Result<Planned, Refusal>,
    pub passed: bool,
    pub searched: u64,
}

// Tests 1 to 8: d, or the refusal.
fn balanced(case: &Case<'_>) -> Result<u64, Refusal>
    ensures { (p s f : ℕ) → Weighed (case_of case.now p s f) result }
{
    form_test(case)?;
    Ok(made_of(case.run1, case.run2, case.supplies, case.demands)?)
}

// Plans a lent case, or refuses it by a cause and a place. However step 1 is tried, the answer is the same. Any count and flag will do beside the
// answer: trials alone read them.
pub fn plan_by(
    trial: Trial,
    case: &Case<'_>,
    plan: &mut [u64],
    splits: &mut [u64],
    freights: &mut [i64],
) -> Tried
    ensures { Answered (case_of case.now (length plan.old) (length splits.old) (length freights.old)) (outcome result.answer)
        (slices plan.old splits.old freights.old) (slices plan.new splits.new freights.new) }
{
    match balanced(case) {
        Err(refusal) => Tried {
            answer: Err(refusal),
            passed: false,
            searched: 0,
        },
        Ok(made) => solve(trial, case, made, plan, splits, freights),
    }
}

// Plans a lent case, or refuses it by a cause and a place.
pub fn plan(
    case: &Case<'_>,
    plan: &mut [u64],
    splits: &mut [u64],
    freights: &mut [i64],
) -> Result<Planned, Refusal>
    ensures { Answered (case_of case.now (length plan.old) (length splits.old) (length freights.old)) (outcome result)
        (slices plan.old splits.old freights.old) (slices plan.new splits.new freights.new) }
{
    let usual = Trial {
        simplex: true,
        lane: None,
        node: None,
    };
    plan_by(usual, case, plan, splits, freights).answer
}

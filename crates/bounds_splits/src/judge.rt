// From the planner's stops to the answers.
ghost use Rattle.problem.specs.Case.{Case};
ghost use Rattle.bounds_problem.specs.Answers.{outcome, Answered};
ghost use Rattle.bounds_problem.specs.inner.Settled.{Listed};
ghost use Rattle.bounds_splits.specs.inner.Judge.{tabled, SomeListed};

use bounds_problem::Known;
use bounds_problem::curve::{draw, first_bad};
use bounds_problem::settle::settle;
use refusal::{Cause, Refusal};

// Tests 28 and 11, and the answers, of every case with this low table that the planner gave these stops.
pub fn judge(
    low: &[u64],
    high: &[u64],
    splits: &[u64],
    freights: &[i64],
    count: usize,
    answers: &mut [u64],
) -> Result<Known, Refusal>
    requires { SomeListed low.now splits.now freights.now count }
    ensures { (c : Case) → Listed (tabled c low.now) splits.now freights.now count →
        Answered (tabled c low.now) high.now (outcome result) answers.old answers.new }
{
    let lo = splits[0];
    let hi = splits[count - 1];
    if high.len() != low.len() {
        return Err(Cause::HighEntry.at(0));
    }
    let start = lo as usize;
    let end = hi as usize + 1;
    let lows = &low[start..end];
    let highs = &high[start..end];
    if let Some(k) = first_bad(lows, highs) {
        return Err(Cause::HighEntry.at(lo + k as u64));
    }
    if answers.len() < lows.len() {
        return Err(Cause::Room.at(0));
    }
    let mut curve = [0; 4001];
    draw(splits, freights, count, &mut curve);
    Ok(settle(lo, &curve, lows, highs, answers))
}

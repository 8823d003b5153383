// The answers, past the tests.
ghost use Rattle.std.specs.Prelude.{◌≡◌, ◌≤◌, length, Ok};
ghost use Rattle.transport.specs.Curve.{written};
ghost use Rattle.bounds_problem.specs.inner.Heights.{Summed, marks_by, least_sum};
ghost use Rattle.bounds_problem.specs.Answers.{outcome};
ghost use Rattle.bounds_problem.specs.inner.Settled.{settled_of};

use crate::Known;
use crate::curve::{least_sum, mark_all, signed};

// The answers from the curve and the two tables' parts at the splits.
pub fn settle(lo: u64, curve: &[u64], lows: &[u64], highs: &[u64], answers: &mut [u64]) -> Known
    requires { Summed curve.now lows.now × Summed curve.now highs.now × (length lows.now ≤ length answers.old) }
    ensures { (outcome (Ok result) ≡ settled_of lo curve.now lows.now highs.now) ×
        (answers.new ≡
        written (marks_by curve.now lows.now (least_sum curve.now highs.now)) answers.old) }
{
    let least = least_sum(curve, lows);
    let most = least_sum(curve, highs);
    mark_all(curve, lows, most, answers);
    let smallest = signed(least);
    let largest = signed(most);
    Known {
        first: lo,
        count: lows.len(),
        smallest,
        largest,
    }
}

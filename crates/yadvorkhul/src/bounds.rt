// The splits that can be the cheapest, for callers outside Rattle: numbers and slices only.
ghost use Rattle.bounds_problem.specs.Answers.{lowCase};
ghost use Rattle.export_reports.specs.Bounds.{BoundsExported};

use export_reports::bounds::tell_bounds;
use lent_case::Case;

// Tells which splits of a lent case can be the cheapest with entries between the low and the high table: 0 where the answers are given, else
// the number of the refusal. The report's first cells get the first split and the count of splits, or the refusal's place, those of the worth
// the smallest and the largest that the least total can be. Where either has fewer than two cells the answer is 34.
#[unsafe(no_mangle)]
pub extern "C" fn yadvorkhul_bounds(
    m: usize,
    n: usize,
    run1: u64,
    run2: u64,
    costs: &[i64],
    supplies: &[u64],
    demands: &[u64],
    ceilings: &[u64],
    low: &[u64],
    high: &[u64],
    answers: &mut [u64],
    report: &mut [u64],
    worth: &mut [i64],
) -> u64
    ensures { BoundsExported
        (lowCase m n run1 run2 costs.now supplies.now demands.now ceilings.now low.now)
        high.now answers.old answers.new report.old report.new worth.old
        worth.new result }
{
    if report.len() < 2 {
        return 34;
    }
    if worth.len() < 2 {
        return 34;
    }
    let case = Case {
        m,
        n,
        run1,
        run2,
        costs,
        supplies,
        demands,
        ceilings,
        table: low,
    };
    let answer = bounds_splits::possible_splits(&case, high, answers);
    tell_bounds(answer, report, worth)
}

// The planner for callers outside Rattle: numbers and slices only.
// Stays: numbers for refusals, and slices with their lengths, are the C interface.
#![tactic(auto)]

mod rates;
mod told;

ghost use Rattle.std.specs.Prelude.{length};
ghost use Rattle.problem.specs.Case.{lent};
ghost use Rattle.planner.specs.Answer.{slices};
ghost use Rattle.export_reports.specs.Report.{Exported};

use export_reports::tell;
use lent_case::Case;

pub mod about;
pub mod bounds;
pub mod files;
pub mod flow;
pub mod seen;
pub mod work;

// Plans a lent case: 0 where there is a plan, else the number of the refusal. The report's first cells get split and count of stops, or the
// refusal's place, those of the worth total and freight. Where either has fewer than two cells the answer is 34.
#[unsafe(no_mangle)]
pub extern "C" fn yadvorkhul_plan(
    m: usize,
    n: usize,
    run1: u64,
    run2: u64,
    costs: &[i64],
    supplies: &[u64],
    demands: &[u64],
    ceilings: &[u64],
    table: &[u64],
    plan: &mut [u64],
    splits: &mut [u64],
    freights: &mut [i64],
    report: &mut [u64],
    worth: &mut [i64],
) -> u64
    ensures { Exported
        (lent m n run1 run2 costs.now supplies.now demands.now ceilings.now table.now
        (length plan.old) (length splits.old) (length freights.old))
        (slices plan.old splits.old freights.old)
        (slices plan.new splits.new freights.new) report.old report.new worth.old
        worth.new result }
{
    if report.len() < 2 {
        return 34;
    }
    if worth.len() < 2 {
        return 34;
    }
    let case = Case {
        m,
        n,
        run1,
        run2,
        costs,
        supplies,
        demands,
        ceilings,
        table,
    };
    let answer = planner::plan(&case, plan, splits, freights);
    tell(answer, report, worth)
}

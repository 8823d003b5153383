// A working case planned and shown, by roles, for callers outside Rattle: the store is lent to be read alone.
ghost use Rattle.planner.specs.Answer.{slices};
ghost use Rattle.work_store.specs.Store.{held_in};
ghost use Rattle.yadvorkhul.specs.Work.{PlanExported, MarkExported, TariffExported, TableExported, LimitsExported, MarksExported};

use crate::told::tell_verdict;
use export_reports::tell;

// Plans the working case: answers, report and worth as for a lent case.
#[unsafe(no_mangle)]
pub extern "C" fn yadvorkhul_plan_case(
    role: usize,
    store: &[u64],
    plan: &mut [u64],
    splits: &mut [u64],
    freights: &mut [i64],
    report: &mut [u64],
    worth: &mut [i64],
) -> u64
    ensures { PlanExported role (held_in store.now)
        (slices plan.old splits.old freights.old)
        (slices plan.new splits.new freights.new) report.old report.new worth.old
        worth.new result }
{
    if report.len() < 2 {
        return 34;
    }
    if worth.len() < 2 {
        return 34;
    }
    let answer = roles::plan_case(role, store, plan, splits, freights);
    tell(answer, report, worth)
}

// Copies unit costs, supplies and demands into lent slices.
#[unsafe(no_mangle)]
pub extern "C" fn yadvorkhul_see_tariff(
    role: usize,
    store: &[u64],
    costs: &mut [i64],
    supplies: &mut [u64],
    demands: &mut [u64],
    report: &mut [u64],
) -> u64
    ensures { TariffExported role (held_in store.now) costs.old supplies.old demands.old
        costs.new supplies.new demands.new report.old report.new result }
{
    if report.len() < 2 {
        return 34;
    }
    let told = roles::see_tariff(role, store, costs, supplies, demands);
    tell_verdict(told, report)
}

// Copies the entries into a lent slice.
#[unsafe(no_mangle)]
pub extern "C" fn yadvorkhul_see_table(
    role: usize,
    store: &[u64],
    table: &mut [u64],
    report: &mut [u64],
) -> u64
    ensures { TableExported role (held_in store.now) table.old table.new report.old report.new result }
{
    if report.len() < 2 {
        return 34;
    }
    let told = roles::see_table(role, store, table);
    tell_verdict(told, report)
}

// Plans the case that a mark holds, without going back: answers, report and worth as for a lent case.
#[unsafe(no_mangle)]
pub extern "C" fn yadvorkhul_plan_mark(
    role: usize,
    mark: usize,
    store: &[u64],
    plan: &mut [u64],
    splits: &mut [u64],
    freights: &mut [i64],
    report: &mut [u64],
    worth: &mut [i64],
) -> u64
    ensures { MarkExported role mark (held_in store.now)
        (slices plan.old splits.old freights.old)
        (slices plan.new splits.new freights.new) report.old report.new worth.old
        worth.new result }
{
    if report.len() < 2 {
        return 34;
    }
    if worth.len() < 2 {
        return 34;
    }
    let answer = roles::plan_mark(role, mark, store, plan, splits, freights);
    tell(answer, report, worth)
}

// Copies the two least runs and the ceilings into lent slices.
#[unsafe(no_mangle)]
pub extern "C" fn yadvorkhul_see_limits(
    role: usize,
    store: &[u64],
    runs: &mut [u64],
    ceilings: &mut [u64],
    report: &mut [u64],
) -> u64
    ensures { LimitsExported role (held_in store.now) runs.old ceilings.old runs.new
        ceilings.new report.old report.new result }
{
    if report.len() < 2 {
        return 34;
    }
    let told = roles::see_limits(role, store, runs, ceilings);
    tell_verdict(told, report)
}

// Writes 1 for each of the eight marks that is set, else 0, into a lent slice.
#[unsafe(no_mangle)]
pub extern "C" fn yadvorkhul_marks_set(
    role: usize,
    store: &[u64],
    marks: &mut [u64],
    report: &mut [u64],
) -> u64
    ensures { MarksExported role (held_in store.now) marks.old marks.new report.old report.new result }
{
    if report.len() < 2 {
        return 34;
    }
    let told = roles::marks_set(role, store, marks);
    tell_verdict(told, report)
}

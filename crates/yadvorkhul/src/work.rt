// A working case with marks, by roles, for callers outside Rattle: entering, edits, marks and returns. The caller keeps the store; a role is handed to
// every call but entering. Each answers 0 where it is done, else the number of the refusal, whose place the report's first cell then gets.
// Where the report has fewer than two cells the answer is 34, and nothing is done.
ghost use Rattle.std.specs.Prelude.{◌≡◌};
ghost use Rattle.work_store.specs.State.{draft};
ghost use Rattle.work_store.specs.Store.{cells_to_lend};
ghost use Rattle.work_store.specs.Calls.{edit_demand, edit_supply, edit_cost, edit_entry, set_mark, go_back};
ghost use Rattle.yadvorkhul.specs.Work.{EnterExported, WorkExported};

use crate::told::tell_verdict;
use lent_case::Case;

// How many cells a store for m sources and n terminals must have; 0 where no case has that size.
#[unsafe(no_mangle)]
pub extern "C" fn yadvorkhul_store_cells(m: usize, n: usize) -> usize
    ensures { result ≡ cells_to_lend m n }
{
    roles::store_cells(m, n)
}

// Enters a case into a store; no mark is set.
#[unsafe(no_mangle)]
pub extern "C" fn yadvorkhul_enter(
    m: usize,
    n: usize,
    run1: u64,
    run2: u64,
    costs: &[i64],
    supplies: &[u64],
    demands: &[u64],
    ceilings: &[u64],
    table: &[u64],
    store: &mut [u64],
    report: &mut [u64],
) -> u64
    ensures { EnterExported
        (draft m n run1 run2 costs.now supplies.now demands.now ceilings.now table.now)
        store.old store.new report.old report.new result }
{
    if report.len() < 2 {
        return 34;
    }
    let case = Case {
        m,
        n,
        run1,
        run2,
        costs,
        supplies,
        demands,
        ceilings,
        table,
    };
    let told = roles::enter(&case, store);
    tell_verdict(told, report)
}

// Alters the demand of a terminal.
#[unsafe(no_mangle)]
pub extern "C" fn yadvorkhul_edit_demand(
    role: usize,
    terminal: usize,
    value: u64,
    store: &mut [u64],
    report: &mut [u64],
) -> u64
    ensures { WorkExported role (edit_demand terminal value) store.old store.new report.old report.new result }
{
    if report.len() < 2 {
        return 34;
    }
    let told = roles::edit_demand(role, terminal, value, store);
    tell_verdict(told, report)
}

// Alters the supply of a source; the table follows the first supply.
#[unsafe(no_mangle)]
pub extern "C" fn yadvorkhul_edit_supply(
    role: usize,
    source: usize,
    value: u64,
    store: &mut [u64],
    report: &mut [u64],
) -> u64
    ensures { WorkExported role (edit_supply source value) store.old store.new report.old report.new result }
{
    if report.len() < 2 {
        return 34;
    }
    let told = roles::edit_supply(role, source, value, store);
    tell_verdict(told, report)
}

// Alters the unit cost of a lane.
#[unsafe(no_mangle)]
pub extern "C" fn yadvorkhul_edit_cost(
    role: usize,
    source: usize,
    terminal: usize,
    value: i64,
    store: &mut [u64],
    report: &mut [u64],
) -> u64
    ensures { WorkExported role (edit_cost source terminal value) store.old store.new report.old
        report.new result }
{
    if report.len() < 2 {
        return 34;
    }
    let told = roles::edit_cost(role, source, terminal, value, store);
    tell_verdict(told, report)
}

// Alters the entry at a split.
#[unsafe(no_mangle)]
pub extern "C" fn yadvorkhul_edit_entry(
    role: usize,
    split: usize,
    value: u64,
    store: &mut [u64],
    report: &mut [u64],
) -> u64
    ensures { WorkExported role (edit_entry split value) store.old store.new report.old report.new result }
{
    if report.len() < 2 {
        return 34;
    }
    let told = roles::edit_entry(role, split, value, store);
    tell_verdict(told, report)
}

// Sets a mark.
#[unsafe(no_mangle)]
pub extern "C" fn yadvorkhul_set_mark(
    role: usize,
    mark: usize,
    store: &mut [u64],
    report: &mut [u64],
) -> u64
    ensures { WorkExported role (set_mark mark) store.old store.new report.old report.new result }
{
    if report.len() < 2 {
        return 34;
    }
    let told = roles::set_mark(role, mark, store);
    tell_verdict(told, report)
}

// Goes back to a mark.
#[unsafe(no_mangle)]
pub extern "C" fn yadvorkhul_go_back(
    role: usize,
    mark: usize,
    store: &mut [u64],
    report: &mut [u64],
) -> u64
    ensures { WorkExported role (go_back mark) store.old store.new report.old report.new result }
{
    if report.len() < 2 {
        return 34;
    }
    let told = roles::go_back(role, mark, store);
    tell_verdict(told, report)
}

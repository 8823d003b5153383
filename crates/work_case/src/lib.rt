// A working case with marks 1 to 8, in a lent store. Not offered, since no operation here asks for a role: callers have `roles`, where the table of
// roles is read before each of them.
#![tactic(auto)]

ghost use Rattle.std.specs.Prelude.{◌≡◌, length};
ghost use Rattle.validation.specs.Verdict.{verdict};
ghost use Rattle.planner.specs.Answer.{outcome, slices};
ghost use Rattle.work_store.specs.Store.{held_in, cells_to_lend};
ghost use Rattle.work_plans.specs.Planning.{PlannedFrom, MarkPlanned};
ghost use Rattle.work_store.specs.Calls.{edit_demand, edit_supply, edit_cost, edit_entry, set_mark, go_back};
ghost use Rattle.work_store.specs.Promise.{Performed, Entered};
ghost use Rattle.work_store.specs.Seeing.{TariffShown, TableShown, LimitsShown, MarksShown};
ghost use Rattle.work_store.specs.State.{draft_of};

use crate::planning::{plan_open, plan_set};
use crate::seeing::{show_limits, show_marks, show_table, show_tariff};
use lent_case::Case;
use planner::Planned;
use refusal::{Cause, Refusal};
use validation::tests::form_test;
use work_edits::edits::{put_cost, put_demand, put_entry, put_supply};
use work_edits::entry::put_case;
use work_store::layout::Layout;
use work_store::marks::{put_back, put_mark};
use work_store::opened::open_store;

mod planning;
mod seeing;

// How many cells to lend for a case of m sources and n terminals; 0 for a size that no case has.
pub fn store_cells(m: usize, n: usize) -> usize
    ensures { result ≡ cells_to_lend m n }
{
    if m < 2 || 32 < m || n < 1 || 64 < n {
        return 0;
    }
    let layout = Layout { m, n };
    layout.cells_for()
}

// Enters a case with its least runs and ceilings; no mark is set.
pub fn enter(case: &Case<'_>, store: &mut [u64]) -> Result<(), Refusal>
    ensures { Entered (draft_of case.now) store.old store.new (verdict result) }
{
    form_test(case)?;
    let layout = Layout {
        m: case.m,
        n: case.n,
    };
    if store.len() < layout.cells_for() {
        return Err(Cause::Room.at(0));
    }
    put_case(case, store);
    Ok(())
}

// Alters the demand of terminal j.
pub fn edit_demand(j: usize, value: u64, store: &mut [u64]) -> Result<(), Refusal>
    ensures { Performed (edit_demand j value) store.old store.new (verdict result) }
{
    let layout = open_store(store)?;
    put_demand(layout, j, value, store)
}

// Alters the supply of source i; the table follows a_1.
pub fn edit_supply(i: usize, value: u64, store: &mut [u64]) -> Result<(), Refusal>
    ensures { Performed (edit_supply i value) store.old store.new (verdict result) }
{
    let layout = open_store(store)?;
    put_supply(layout, i, value, store)
}

// Alters the unit cost of the lane from source i to terminal j.
pub fn edit_cost(i: usize, j: usize, value: i64, store: &mut [u64]) -> Result<(), Refusal>
    ensures { Performed (edit_cost i j value) store.old store.new (verdict result) }
{
    let layout = open_store(store)?;
    put_cost(layout, i, j, value, store)
}

// Alters the entry at split y.
pub fn edit_entry(y: usize, value: u64, store: &mut [u64]) -> Result<(), Refusal>
    ensures { Performed (edit_entry y value) store.old store.new (verdict result) }
{
    let layout = open_store(store)?;
    put_entry(layout, y, value, store)
}

// Sets mark k.
pub fn set_mark(k: usize, store: &mut [u64]) -> Result<(), Refusal>
    ensures { Performed (set_mark k) store.old store.new (verdict result) }
{
    let layout = open_store(store)?;
    put_mark(layout, k, store)
}

// Goes back to mark k.
pub fn go_back(k: usize, store: &mut [u64]) -> Result<(), Refusal>
    ensures { Performed (go_back k) store.old store.new (verdict result) }
{
    let layout = open_store(store)?;
    put_back(layout, k, store)
}

// Plans the working case.
pub fn plan_case(
    store: &[u64],
    plan: &mut [u64],
    splits: &mut [u64],
    freights: &mut [i64],
) -> Result<Planned, Refusal>
    ensures { PlannedFrom (held_in store.now) (length plan.old) (length splits.old)
        (length freights.old) (outcome result) (slices plan.old splits.old freights.old)
        (slices plan.new splits.new freights.new) }
{
    let layout = open_store(store)?;
    plan_open(layout, store, plan, splits, freights)
}

// Shows unit costs, supplies and demands.
pub fn see_tariff(
    store: &[u64],
    costs: &mut [i64],
    supplies: &mut [u64],
    demands: &mut [u64],
) -> Result<(), Refusal>
    ensures { TariffShown (held_in store.now) costs.old supplies.old demands.old
        costs.new supplies.new demands.new (verdict result) }
{
    let layout = open_store(store)?;
    show_tariff(layout, store, costs, supplies, demands)
}

// Shows the entries.
pub fn see_table(store: &[u64], table: &mut [u64]) -> Result<(), Refusal>
    ensures { TableShown (held_in store.now) table.old table.new (verdict result) }
{
    let layout = open_store(store)?;
    show_table(layout, store, table)
}

// Shows the two least runs and the ceilings.
pub fn see_limits(store: &[u64], runs: &mut [u64], ceilings: &mut [u64]) -> Result<(), Refusal>
    ensures { LimitsShown (held_in store.now) runs.old ceilings.old runs.new
        ceilings.new (verdict result) }
{
    let layout = open_store(store)?;
    show_limits(layout, store, runs, ceilings)
}

// Shows which marks are set.
pub fn marks_set(store: &[u64], marks: &mut [u64]) -> Result<(), Refusal>
    ensures { MarksShown (held_in store.now) marks.old marks.new (verdict result) }
{
    let layout = open_store(store)?;
    show_marks(layout, store, marks)
}

// Plans the case that mark k holds, without going back.
pub fn plan_mark(
    k: usize,
    store: &[u64],
    plan: &mut [u64],
    splits: &mut [u64],
    freights: &mut [i64],
) -> Result<Planned, Refusal>
    ensures { MarkPlanned k (held_in store.now) (length plan.old) (length splits.old)
        (length freights.old) (outcome result) (slices plan.old splits.old freights.old)
        (slices plan.new splits.new freights.new) }
{
    let layout = open_store(store)?;
    plan_set(layout, k, store, plan, splits, freights)
}

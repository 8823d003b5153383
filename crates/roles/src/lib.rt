// The working case as it is offered: the table of roles is read before each operation on it, and each is done only where the table allows it.
// Entering makes a working case and takes no role.
#![tactic(auto)]

ghost use Rattle.std.specs.Prelude.{◌≡◌, length};
ghost use Rattle.validation.specs.Verdict.{verdict};
ghost use Rattle.planner.specs.Answer.{outcome, slices};
ghost use Rattle.work_store.specs.State.{draft_of};
ghost use Rattle.work_store.specs.Promise.{Entered};
ghost use Rattle.work_store.specs.Store.{held_in, cells_to_lend};
ghost use Rattle.work_store.specs.Calls.{edit_demand, edit_supply, edit_cost, edit_entry, set_mark, go_back};
ghost use Rattle.roletable.specs.Column.{column_of};
ghost use Rattle.roles.specs.Asking.{Asked};
ghost use Rattle.roletable.specs.Promise.{PerformedBy, PlannedBy, MarkPlannedBy, TariffSeen, TableSeen, LimitsSeen, MarksSeen};

use lent_case::Case;
use planner::Planned;
use refusal::{Cause, Refusal};
use roletable::table::{Deed, may, may_supply};

// 31, unless the role may do the deed.
// Stays: a role is a number, since callers outside hand over any, and 31 answers one that is none of the four.
fn ask(role: usize, deed: Deed) -> Result<(), Cause>
    ensures { Asked role (column_of deed) result }
{
    if !may(role, deed) {
        return Err(Cause::Role);
    }
    Ok(())
}

// How many cells to lend for a case of m sources and n terminals; 0 for a size that no case has.
pub fn store_cells(m: usize, n: usize) -> usize
    ensures { result ≡ cells_to_lend m n }
{
    work_case::store_cells(m, n)
}

// Enters a case with its least runs and ceilings; no mark is set.
pub fn enter(case: &Case<'_>, store: &mut [u64]) -> Result<(), Refusal>
    ensures { Entered (draft_of case.now) store.old store.new (verdict result) }
{
    work_case::enter(case, store)
}

// Alters the demand of terminal j.
pub fn edit_demand(role: usize, j: usize, value: u64, store: &mut [u64]) -> Result<(), Refusal>
    ensures { PerformedBy role (edit_demand j value) store.old store.new (verdict result) }
{
    ask(role, Deed::EditAmount)?;
    work_case::edit_demand(j, value, store)
}

// Alters the supply of source i; the table follows a_1.
pub fn edit_supply(role: usize, i: usize, value: u64, store: &mut [u64]) -> Result<(), Refusal>
    ensures { PerformedBy role (edit_supply i value) store.old store.new (verdict result) }
{
    if !may_supply(role, i) {
        return Err(Cause::Role.at(0));
    }
    work_case::edit_supply(i, value, store)
}

// Alters the unit cost of the lane from source i to terminal j.
pub fn edit_cost(
    role: usize,
    i: usize,
    j: usize,
    value: i64,
    store: &mut [u64],
) -> Result<(), Refusal>
    ensures { PerformedBy role (edit_cost i j value) store.old store.new (verdict result) }
{
    ask(role, Deed::EditCost)?;
    work_case::edit_cost(i, j, value, store)
}

// Alters the entry at split y.
pub fn edit_entry(role: usize, y: usize, value: u64, store: &mut [u64]) -> Result<(), Refusal>
    ensures { PerformedBy role (edit_entry y value) store.old store.new (verdict result) }
{
    ask(role, Deed::EditEntry)?;
    work_case::edit_entry(y, value, store)
}

// Sets mark k.
pub fn set_mark(role: usize, k: usize, store: &mut [u64]) -> Result<(), Refusal>
    ensures { PerformedBy role (set_mark k) store.old store.new (verdict result) }
{
    ask(role, Deed::SetMark)?;
    work_case::set_mark(k, store)
}

// Goes back to mark k.
pub fn go_back(role: usize, k: usize, store: &mut [u64]) -> Result<(), Refusal>
    ensures { PerformedBy role (go_back k) store.old store.new (verdict result) }
{
    ask(role, Deed::GoBack)?;
    work_case::go_back(k, store)
}

// Plans the working case.
pub fn plan_case(
    role: usize,
    store: &[u64],
    plan: &mut [u64],
    splits: &mut [u64],
    freights: &mut [i64],
) -> Result<Planned, Refusal>
    ensures { PlannedBy role (held_in store.now) (length plan.old) (length splits.old)
        (length freights.old) (outcome result) (slices plan.old splits.old freights.old)
        (slices plan.new splits.new freights.new) }
{
    ask(role, Deed::Plan)?;
    work_case::plan_case(store, plan, splits, freights)
}

// Shows unit costs, supplies and demands.
pub fn see_tariff(
    role: usize,
    store: &[u64],
    costs: &mut [i64],
    supplies: &mut [u64],
    demands: &mut [u64],
) -> Result<(), Refusal>
    ensures { TariffSeen role (held_in store.now) costs.old supplies.old demands.old
        costs.new supplies.new demands.new (verdict result) }
{
    ask(role, Deed::SeeTariff)?;
    work_case::see_tariff(store, costs, supplies, demands)
}

// Shows the entries.
pub fn see_table(role: usize, store: &[u64], table: &mut [u64]) -> Result<(), Refusal>
    ensures { TableSeen role (held_in store.now) table.old table.new (verdict result) }
{
    ask(role, Deed::SeeTable)?;
    work_case::see_table(store, table)
}

// The deed of planning.
const PLAN: Deed = Deed::Plan;

// 31, unless the role may plan: the three operations below count as planning.
fn ask_plan(role: usize) -> Result<(), Cause>
    ensures { Asked role 6 result }
{
    ask(role, PLAN)
}

// Plans the case that mark k holds, without going back: the planner's alone, as planning is.
pub fn plan_mark(
    role: usize,
    k: usize,
    store: &[u64],
    plan: &mut [u64],
    splits: &mut [u64],
    freights: &mut [i64],
) -> Result<Planned, Refusal>
    ensures { MarkPlannedBy role k (held_in store.now) (length plan.old) (length splits.old)
        (length freights.old) (outcome result) (slices plan.old splits.old freights.old)
        (slices plan.new splits.new freights.new) }
{
    ask_plan(role)?;
    work_case::plan_mark(k, store, plan, splits, freights)
}

// Shows the two least runs and the ceilings: the planner's alone, as planning is.
pub fn see_limits(
    role: usize,
    store: &[u64],
    runs: &mut [u64],
    ceilings: &mut [u64],
) -> Result<(), Refusal>
    ensures { LimitsSeen role (held_in store.now) runs.old ceilings.old runs.new
        ceilings.new (verdict result) }
{
    ask_plan(role)?;
    work_case::see_limits(store, runs, ceilings)
}

// Shows which marks are set: the planner's alone, as planning is.
pub fn marks_set(role: usize, store: &[u64], marks: &mut [u64]) -> Result<(), Refusal>
    ensures { MarksSeen role (held_in store.now) marks.old marks.new (verdict result) }
{
    ask_plan(role)?;
    work_case::marks_set(store, marks)
}

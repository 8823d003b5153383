// Planning from an open store.
ghost use Rattle.std.proofs.Math.Option.{some};
ghost use Rattle.std.specs.Prelude.{length};
ghost use Rattle.planner.specs.Answer.{outcome, slices, Answered};
ghost use Rattle.work_store.specs.State.{lent_with};
ghost use Rattle.work_store.specs.Store.{slot, draft_in, state_at};
ghost use Rattle.work_store.specs.inner.OpenStore.{Open, Front};
ghost use Rattle.work_plans.specs.Planning.{MarkPlanned};

use lent_case::Case;
use planner::Planned;
use refusal::{Cause, Refusal};
use work_edits::costs::lower_cells;
use work_edits::edits::entries;
use work_store::layout::{FLAGS, Layout, RUN1, RUN2, SUPPLIES};

// Plans the case in the first slot of cells that begin as a store does.
pub fn plan_open(
    layout: Layout,
    store: &[u64],
    plan: &mut [u64],
    splits: &mut [u64],
    freights: &mut [i64],
) -> Result<Planned, Refusal>
    requires { Front layout.m layout.n store.now }
    ensures { Answered
        (lent_with (draft_in layout.m layout.n (slot layout.m layout.n 0 store.now)) (length plan.old) (length splits.old) (length freights.old))
        (outcome result) (slices plan.old splits.old freights.old)
        (slices plan.new splits.new freights.new) }
{
    let s = SUPPLIES;
    let a = layout.demands_at();
    let b = layout.costs_at();
    let c = layout.ceilings_at();
    let d = layout.table_at();
    let e = d + entries(store);
    let lanes = layout.m * layout.n;
    // Lowered where they are lent from: an array handed back by value would stand twice on the stack.
    let mut costs = [0i64; 2048];
    lower_cells(&store[b..c], &mut costs);
    let case = Case {
        m: layout.m,
        n: layout.n,
        run1: store[RUN1],
        run2: store[RUN2],
        costs: &costs[0..lanes],
        supplies: &store[s..a],
        demands: &store[a..b],
        ceilings: &store[c..d],
        table: &store[d..e],
    };
    planner::plan(&case, plan, splits, freights)
}

// Plans the case of mark k in an open store.
pub fn plan_set(
    layout: Layout,
    k: usize,
    store: &[u64],
    plan: &mut [u64],
    splits: &mut [u64],
    freights: &mut [i64],
) -> Result<Planned, Refusal>
    requires { Open layout.m layout.n store.now }
    ensures { MarkPlanned k (some (state_at layout.m layout.n store.now)) (length plan.old) (length splits.old)
        (length freights.old) (outcome result) (slices plan.old splits.old freights.old)
        (slices plan.new splits.new freights.new) }
{
    if k < 1 || 8 < k {
        return Err(Cause::NoSuch.at(0));
    }
    if store[FLAGS + k] == 0 {
        return Err(Cause::Unset.at(k as u64));
    }
    let at = k * layout.slot_width();
    plan_open(layout, &store[at..], plan, splits, freights)
}

// What of an open store is shown.
ghost use Rattle.std.specs.Prelude.{◌≡◌, cond, ◌∷◌, [], ℕ, ◌≤◌, eqb, length};
ghost use Rattle.validation.specs.Verdict.{verdict};
ghost use Rattle.work_store.specs.Store.{state_at};
ghost use Rattle.work_store.specs.Seeing.{tariff_refusal, table_refusal, limits_refusal, marks_refusal, flags_of, shown_unless};
ghost use Rattle.work_store.specs.inner.OpenStore.{Open};

use refusal::{Cause, Refusal};
use work_edits::costs::lower_cells;
use work_edits::edits::entries;
use work_edits::entry::put_cells;
use work_store::layout::{Layout, RUN1, SUPPLIES};

// Copies unit costs, supplies and demands.
pub fn show_tariff(
    layout: Layout,
    store: &[u64],
    costs: &mut [i64],
    supplies: &mut [u64],
    demands: &mut [u64],
) -> Result<(), Refusal>
    requires { Open layout.m layout.n store.now }
    ensures told { verdict result ≡
        tariff_refusal (length costs.old) (length supplies.old) (length demands.old)
        (state_at layout.m layout.n store.now).case }
    ensures costs { costs.new ≡ shown_unless (verdict result) (state_at layout.m layout.n store.now).case.costs costs.old }
    ensures supplies { supplies.new ≡ shown_unless (verdict result) (state_at layout.m layout.n store.now).case.supplies supplies.old }
    ensures demands { demands.new ≡ shown_unless (verdict result) (state_at layout.m layout.n store.now).case.demands demands.old }
{
    let s = SUPPLIES;
    let a = layout.demands_at();
    let b = layout.costs_at();
    let c = layout.ceilings_at();
    let lanes = layout.m * layout.n;
    if costs.len() < lanes || supplies.len() < layout.m || demands.len() < layout.n {
        return Err(Cause::Room.at(0));
    }
    lower_cells(&store[b..c], costs);
    put_cells(&store[s..a], 0, supplies);
    put_cells(&store[a..b], 0, demands);
    Ok(())
}

// Copies the entries.
pub fn show_table(layout: Layout, store: &[u64], table: &mut [u64]) -> Result<(), Refusal>
    requires { Open layout.m layout.n store.now }
    ensures told { verdict result ≡ table_refusal (length table.old) (state_at layout.m layout.n store.now).case }
    ensures table { table.new ≡ shown_unless (verdict result) (state_at layout.m layout.n store.now).case.table table.old }
{
    let count = entries(store);
    let d = layout.table_at();
    let e = d + count;
    if table.len() < count {
        return Err(Cause::Room.at(0));
    }
    put_cells(&store[d..e], 0, table);
    Ok(())
}

// Copies the two least runs and the ceilings.
pub fn show_limits(
    layout: Layout,
    store: &[u64],
    runs: &mut [u64],
    ceilings: &mut [u64],
) -> Result<(), Refusal>
    requires { Open layout.m layout.n store.now }
    ensures told { verdict result ≡ limits_refusal (length runs.old) (length ceilings.old) (state_at layout.m layout.n store.now).case }
    ensures runs { runs.new ≡
        shown_unless (verdict result) ((state_at layout.m layout.n store.now).case.run1 ∷ (state_at layout.m layout.n store.now).case.run2 ∷ []) runs.old }
    ensures ceilings { ceilings.new ≡ shown_unless (verdict result) (state_at layout.m layout.n store.now).case.ceilings ceilings.old }
{
    let a = RUN1;
    let b = SUPPLIES;
    let c = layout.ceilings_at();
    let d = layout.table_at();
    let lanes = layout.m * layout.n;
    if runs.len() < 2 || ceilings.len() < lanes {
        return Err(Cause::Room.at(0));
    }
    put_cells(&store[a..b], 0, runs);
    put_cells(&store[c..d], 0, ceilings);
    Ok(())
}

// 1 for a cell that is not 0.
fn flag(cell: u64) -> u64
    ensures { result ≡ cond (eqb cell 0) 0 1 }
{
    if cell == 0 { 0 } else { 1 }
}

// The flags of the eight marks, at any size of the case.
fn flags(store: &[u64]) -> [u64; 8]
    requires { 10 ≤ length store.now }
    ensures { (m n : ℕ) → result ≡ flags_of (state_at m n store.now) }
{
    [
        flag(store[2]),
        flag(store[3]),
        flag(store[4]),
        flag(store[5]),
        flag(store[6]),
        flag(store[7]),
        flag(store[8]),
        flag(store[9]),
    ]
}

// Copies the flags of the eight marks.
pub fn show_marks(layout: Layout, store: &[u64], marks: &mut [u64]) -> Result<(), Refusal>
    requires { Open layout.m layout.n store.now }
    ensures told { verdict result ≡ marks_refusal (length marks.old) }
    ensures marks { marks.new ≡ shown_unless (verdict result) (flags_of (state_at layout.m layout.n store.now)) marks.old }
{
    if marks.len() < 8 {
        return Err(Cause::Room.at(0));
    }
    let told = flags(store);
    put_cells(&told, 0, marks);
    Ok(())
}

// Edits of the working case in an open store.
ghost use Rattle.std.specs.Prelude.{◌≡◌, ◌+◌, ◌≤◌, length, set};
ghost use Rattle.validation.specs.Verdict.{verdict};
ghost use Rattle.work_store.specs.Store.{supplies_at, in_case, zeroed, entries_in, extended};
ghost use Rattle.work_store.specs.Calls.{edit_demand, edit_supply, edit_cost, edit_entry};
ghost use Rattle.work_store.specs.inner.OpenStore.{Open, Acted, run_in};

use crate::costs::raised;
use refusal::{Cause, Refusal};
use validation::tests::out_of_range;
use work_store::layout::{Layout, RUN1, RUN2, SUPPLIES};

pub fn put_demand(layout: Layout, j: usize, value: u64, store: &mut [u64]) -> Result<(), Refusal>
    requires { Open layout.m layout.n store.old }
    ensures { Acted layout.m layout.n (edit_demand j value) store.old store.new (verdict result) }
{
    if j < 1 || layout.n < j {
        return Err(Cause::NoSuch.at(0));
    }
    if 4_000 < value {
        return Err(Cause::Amount.at((layout.m + j) as u64));
    }
    let at = layout.demands_at() + (j - 1);
    store[at] = value;
    Ok(())
}

// How many entries the table has.
pub fn entries(store: &[u64]) -> usize
    requires { 14 ≤ length store.now }
    ensures { result ≡ entries_in store.now }
{
    store[SUPPLIES].min(4_000) as usize + 1
}

// Makes cells 0.
fn zero_cells(from: usize, count: usize, store: &mut [u64])
    requires { from + count ≤ length store.old }
    ensures { store.new ≡ zeroed store.old from count }
{
    for i in 0..count {
        store[from + i] = 0;
    }
}

// The least run of source i, 0 of a depot.
fn least_run(i: usize, store: &[u64]) -> u64
    requires { 13 ≤ length store.now }
    ensures { result ≡ run_in store.now i }
{
    if i == 1 {
        store[RUN1]
    } else if i == 2 {
        store[RUN2]
    } else {
        0
    }
}

// Alters a_1: the table is lengthened with zeros or cut.
fn put_first(layout: Layout, value: u64, store: &mut [u64])
    requires fact { Open layout.m layout.n store.old }
    requires value_bound { value ≤ 4000 }
    ensures { store.new ≡ set (extended layout.m layout.n (value + 1) store.old) (in_case supplies_at) value }
{
    let old = entries(store);
    let at = layout.table_at();
    zero_cells(at + old, (value as usize + 1).saturating_sub(old), store);
    store[SUPPLIES] = value;
}

pub fn put_supply(layout: Layout, i: usize, value: u64, store: &mut [u64]) -> Result<(), Refusal>
    requires { Open layout.m layout.n store.old }
    ensures { Acted layout.m layout.n (edit_supply i value) store.old store.new (verdict result) }
{
    if i < 1 || layout.m < i {
        return Err(Cause::NoSuch.at(0));
    }
    if 4_000 < value {
        return Err(Cause::Amount.at(i as u64));
    }
    if value < least_run(i, store) {
        return Err(Cause::LeastRun.at(i as u64));
    }
    if i == 1 {
        put_first(layout, value, store);
        return Ok(());
    }
    let at = SUPPLIES + (i - 1);
    store[at] = value;
    Ok(())
}

pub fn put_cost(
    layout: Layout,
    i: usize,
    j: usize,
    value: i64,
    store: &mut [u64],
) -> Result<(), Refusal>
    requires { Open layout.m layout.n store.old }
    ensures { Acted layout.m layout.n (edit_cost i j value) store.old store.new (verdict result) }
{
    if i < 1 || layout.m < i || j < 1 || layout.n < j {
        return Err(Cause::NoSuch.at(0));
    }
    let row = (i - 1) * layout.n;
    if out_of_range(value) {
        return Err(Cause::UnitCost.at((row + j) as u64));
    }
    let at = layout.costs_at() + (row + (j - 1));
    let cell = raised(value);
    store[at] = cell;
    Ok(())
}

pub fn put_entry(layout: Layout, y: usize, value: u64, store: &mut [u64]) -> Result<(), Refusal>
    requires { Open layout.m layout.n store.old }
    ensures { Acted layout.m layout.n (edit_entry y value) store.old store.new (verdict result) }
{
    let count = entries(store);
    if count <= y {
        return Err(Cause::NoSuch.at(0));
    }
    let at = layout.table_at() + y;
    store[at] = value;
    Ok(())
}

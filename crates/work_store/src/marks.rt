// Marks in an open store.
ghost use Rattle.std.specs.Prelude.{◌≡◌, drop};
ghost use Rattle.std.proofs.Math.Seq.{paste};
ghost use Rattle.validation.specs.Verdict.{verdict};
ghost use Rattle.work_store.specs.Calls.{set_mark, go_back};
ghost use Rattle.work_store.specs.inner.OpenStore.{Open, Acted, Apart, Slots};
ghost use Rattle.work_store.specs.Store.{copied};

use crate::layout::{FLAGS, Layout};
use refusal::{Cause, Refusal};

// Copies a range of cells to another, apart from it.
fn copy_cells(from: usize, to: usize, count: usize, store: &mut [u64])
    requires { Apart from to count store.old }
    ensures { store.new ≡ paste store.old to (drop from store.old) count }
{
    store.copy_within(from..from + count, to);
}

// Copies one slot to another.
fn copy_slot(layout: Layout, from: usize, to: usize, store: &mut [u64])
    requires fact { Open layout.m layout.n store.old }
    requires slots { Slots from to }
    ensures { store.new ≡ copied layout.m layout.n from to store.old }
{
    let a = layout.slot_start(from);
    let b = layout.slot_start(to);
    let width = layout.slot_width();
    copy_cells(a, b, width, store);
}

pub fn put_mark(layout: Layout, k: usize, store: &mut [u64]) -> Result<(), Refusal>
    requires { Open layout.m layout.n store.old }
    ensures { Acted layout.m layout.n (set_mark k) store.old store.new (verdict result) }
{
    if k < 1 || 8 < k {
        return Err(Cause::NoSuch.at(0));
    }
    copy_slot(layout, 0, k, store);
    store[FLAGS + k] = 1;
    Ok(())
}

pub fn put_back(layout: Layout, k: usize, store: &mut [u64]) -> Result<(), Refusal>
    requires { Open layout.m layout.n store.old }
    ensures { Acted layout.m layout.n (go_back k) store.old store.new (verdict result) }
{
    if k < 1 || k > 8 {
        return Err(Cause::NoSuch.at(0));
    }
    if store[FLAGS + k] == 0 {
        return Err(Cause::Unset.at(k as u64));
    }
    copy_slot(layout, k, 0, store);
    Ok(())
}

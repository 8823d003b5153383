// A case entered into a store.
ghost use Rattle.std.specs.Prelude.{◌≡◌, ◌+◌, ◌≤◌, length};
ghost use Rattle.std.proofs.Math.Seq.{paste};
ghost use Rattle.transport.specs.Curve.{written};
ghost use Rattle.work_store.specs.Store.{cells_of};
ghost use Rattle.work_store.specs.inner.OpenStore.{Sized};
ghost use Rattle.work_store.specs.State.{draft_of};

use crate::costs::raise_cells;
use lent_case::Case;
use work_store::layout::{Layout, SIGNATURE, SUPPLIES};

// Copies a slice into the store from cell `at` on.
// No `copy_from_slice`: of a part, it has the archive want `memmove` of the C library.
pub fn put_cells(source: &[u64], at: usize, store: &mut [u64])
    requires { at + length source.now ≤ length store.old }
    ensures { store.new ≡ paste store.old at source.now (length source.now) }
{
    for (k, cell) in source.iter().enumerate() {
        store[at + k] = *cell;
    }
}

// Writes a case from the first cell on, with no mark set.
pub fn put_case(case: &Case<'_>, store: &mut [u64])
    requires { Sized (draft_of case.now) store.old }
    ensures { store.new ≡ written (cells_of (draft_of case.now)) store.old }
{
    let layout = Layout {
        m: case.m,
        n: case.n,
    };
    let head = [
        case.m as u64,
        case.n as u64,
        0,
        0,
        0,
        0,
        0,
        0,
        0,
        0,
        SIGNATURE,
        case.run1,
        case.run2,
    ];
    let a = layout.demands_at();
    let b = layout.costs_at();
    let c = layout.ceilings_at();
    let d = layout.table_at();
    put_cells(&head, 0, store);
    put_cells(case.supplies, SUPPLIES, store);
    put_cells(case.demands, a, store);
    raise_cells(case.costs, b, store);
    put_cells(case.ceilings, c, store);
    put_cells(case.table, d, store);
}

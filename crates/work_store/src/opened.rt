// Which working case a store holds.
ghost use Rattle.std.specs.Prelude.{◌≡◌};
ghost use Rattle.work_store.specs.inner.OpenStore.{opened_of};

use crate::layout::{Layout, SIGNATURE, SIGNED};
use refusal::Cause;

pub fn open_store(store: &[u64]) -> Result<Layout, Cause>
    ensures { result ≡ opened_of store.now }
{
    if store.len() < 11 || store[SIGNED] != SIGNATURE {
        return Err(Cause::Room);
    }
    let a = store[0];
    let b = store[1];
    if a < 2 || 32 < a || b < 1 || 64 < b {
        return Err(Cause::Room);
    }
    let layout = Layout {
        m: a as usize,
        n: b as usize,
    };
    if store.len() < layout.cells_for() {
        return Err(Cause::Room);
    }
    Ok(layout)
}

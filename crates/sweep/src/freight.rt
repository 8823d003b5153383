// The freight of a plan, and a freight as the case has it.
ghost use Rattle.std.specs.Prelude.{◌≡◌, ◌+◌, ◌*◌, ◌≤◌};
ghost use Rattle.std.proofs.Math.IntN.{sub_ℕ};
ghost use Rattle.transport.specs.Sum.{sum};
ghost use Rattle.transport.specs.Plan.{freight};
ghost use Rattle.residual.specs.inner.Cells.{cells};
ghost use Rattle.sweep.specs.inner.FreightSum.{FreightReady};

use residual::lanes::Lanes;

// The freight of what source i sends.
fn row_freight(n: usize, i: usize, cost: &[u32; 2048], x: &[u32; 2048]) -> u64
    requires { FreightReady (i + 1) n (cells cost.now) (cells x.now) }
    ensures { result ≡ sum n (λ j. cells cost.now i j * cells x.now i j) }
{
    let mut total: u64 = 0;
    for j in 0..n {
        let k = i * 64 + j;
        total = total + (cost[k] as u64) * (x[k] as u64);
    }
    total
}

// The freight of a plan.
pub fn freight_of(lanes: &Lanes<'_>, x: &[u32; 2048]) -> u64
    requires { FreightReady lanes.now.m lanes.now.n (cells lanes.now.cost.now) (cells x.now) }
    ensures { result ≡ freight lanes.now.m lanes.now.n (cells lanes.now.cost.now) (cells x.now) }
{
    let mut total: u64 = 0;
    for i in 0..lanes.m {
        total = total + row_freight(lanes.n, i, lanes.cost, x);
    }
    total
}

// A freight with what was added to it taken off again.
pub fn lowered(freight: u64, added: u64) -> i64
    requires { (freight ≤ 1000000000000) × (added ≤ 1000000000000) }
    ensures { result ≡ sub_ℕ freight added }
{
    freight as i64 - added as i64
}

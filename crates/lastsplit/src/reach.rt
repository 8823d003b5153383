// The last split that has a plan within the ceilings.
ghost use Rattle.std.specs.Prelude.{◌≡◌, true, ℕ, ◌+◌, ◌≤◌, ◌<◌};
ghost use Rattle.residual.specs.inner.Cells.{cells};
ghost use Rattle.residual.specs.inner.Network.{net, get};
ghost use Rattle.residual.specs.inner.LanesInUse.{Covers};
ghost use Rattle.paths.specs.inner.Search.{Wanted};
ghost use Rattle.lastsplit.specs.inner.LastSplit.{AllWide, ReachReady, Reached, LastReady};

use augment::send::send;
use residual::lanes::{Flow, Lanes};

// A number that has the top bit only where the ceiling is not below the demand.
fn wide_bit(ceiling: u32, demand: u32) -> u32
    ensures { 2147483648 ≤ result → demand ≤ ceiling }
{
    let spare = ceiling % 2_147_483_648 + 2_147_483_648 - demand % 2_147_483_648;
    spare & (u32::MAX - demand)
}

// Is no ceiling of source i below a demand? All 64 cells of its row are looked at, without a branch, which plain machines do four at a time.
fn row_wide(i: usize, cap: &[u32; 2048], demand: &[u32; 96]) -> bool
    requires { i < 32 }
    ensures { result ≡ true → (j : ℕ) → j < 64 → get demand.now (32 + j) ≤ cells cap.now i j }
{
    let k = i * 64;
    let mut all = u32::MAX;
    for j in 0..64 {
        all = all & wide_bit(cap[k + j], demand[32 + j]);
    }
    2_147_483_648 <= all
}

// Is no ceiling below a demand? Any answer false will do: other ways to the same answers are then taken.
pub fn all_wide(m: usize, cap: &[u32; 2048], demand: &[u32; 96]) -> bool
    requires { m ≤ 32 }
    ensures { result ≡ true → AllWide m cap.now demand.now }
{
    for i in 0..m {
        if !row_wide(i, cap, demand) {
            return false;
        }
    }
    true
}

// How many drums can go over from plant 2 to plant 1, limit at most.
fn reach(lanes: &Lanes<'_>, limit: u32, demand: &[u32; 96], flow: &mut Flow) -> u32
    requires reach_ready { ReachReady (net lanes.now.m lanes.now.n lanes.now.cost.now lanes.now.cap.now flow.old.x) flow.old.pot flow.old.x limit }
    requires wanted { Wanted (net lanes.now.m lanes.now.n lanes.now.cost.now lanes.now.cap.now flow.old.x) demand.now }
    requires covers { Covers lanes.now.m lanes.now.n flow.old.x flow.old.serves }
    ensures { Reached lanes.now.m lanes.now.n (cells lanes.now.cap.now) (cells flow.old.x) limit result }
{
    let mut gone: u32 = 0;
    // Stays: no index is counted; each send brings over as many drums as its path can bear.
    while gone < limit {
        let mut room = [0u32; 96];
        room[1] = limit - gone;
        let Some(sent) = send(lanes, &room, demand, 0, limit - gone, flow) else {
            return gone;
        };
        gone = gone + sent.amount;
    }
    gone
}

// The same from a plan that is to stay. Where no ceiling is below a demand, which is what wide tells, limit drums can go over; else they go
// along any paths, since what the lanes cost does not matter.
pub fn last(wide: bool, lanes: &Lanes<'_>, limit: u32, demand: &[u32; 96], flow: &Flow) -> u32
    requires all_wide { wide ≡ true → AllWide lanes.now.m lanes.now.cap.now demand.now }
    requires last_ready { LastReady lanes.now.m lanes.now.n (cells lanes.now.cap.now) flow.now.x limit }
    requires wanted { Wanted (net lanes.now.m lanes.now.n flow.now.x lanes.now.cap.now flow.now.x) demand.now }
    requires covers { Covers lanes.now.m lanes.now.n flow.now.x flow.now.serves }
    ensures { Reached lanes.now.m lanes.now.n (cells lanes.now.cap.now) (cells flow.now.x) limit result }
{
    if wide {
        return limit;
    }
    let free = [0u32; 2048];
    let ways = Lanes {
        m: lanes.m,
        n: lanes.n,
        cost: &free,
        cap: lanes.cap,
    };
    let mut far = Flow {
        x: flow.x,
        serves: flow.serves,
        pot: [800_000_000u32; 96],
    };
    reach(&ways, limit, demand, &mut far)
}

// The simplex: from a first tree, pivot after pivot, to one with no lane that is too cheap; and the plan and the potentials of a tree.
ghost use Rattle.std.specs.Prelude.{◌≡◌, length};

use super::flow::pivot;
use super::potentials::Potentials;
use super::price::least;
use super::start::start;
use spanningtree::flows::lane;
use spanningtree::tree::Tree;

// The source that is looked at, and how many in a row had no lane that is too cheap.
#[derive(Drop)]
pub struct Pricing {
    pub row: u32,
    pub clean: u32,
}

// The source after this one, of m.
pub fn next(row: u32, m: u32) -> u32 {
    let r = row % 32 + 1;
    if r == m { 0 } else { r }
}

// A pivot at the source's cheapest lane, where it is too cheap; else on to the next source.
fn step(
    m: u32,
    n: usize,
    now: Pricing,
    cost: &[u32; 2048],
    tree: &mut Tree,
    flow: &mut [u32; 128],
    potentials: &mut Potentials,
) -> Pricing {
    let row = now.row;
    let l = least(row, n, cost, &potentials.key);
    let s = l / 64 + potentials.source[(row % 32) as usize] % 33_554_432;
    if 33_554_432 <= s {
        return Pricing {
            row: next(row, m),
            clean: now.clean % 64 + 1,
        };
    }
    pivot(row, 32 + l % 64, 33_554_432 - s, tree, flow, potentials);
    Pricing { row, clean: 0 }
}

// Until no source has a lane that is too cheap, 20,000 passes at most.
fn simplex(
    m: u32,
    n: usize,
    cost: &[u32; 2048],
    tree: &mut Tree,
    flow: &mut [u32; 128],
    potentials: &mut Potentials,
) {
    let mut now = Pricing { row: 0, clean: 0 };
    for _ in 0..20_000 {
        if m <= now.clean {
            return;
        }
        now = step(m, n, now, cost, tree, flow, potentials);
    }
}

// What the lanes of the tree carry.
fn carried(tree: &Tree, flow: &[u32; 128], x: &mut [u32; 2048])
    requires { length x.old ≡ 2048 }
    ensures { length x.new ≡ 2048 }
{
    for v in 0..96 {
        let u = tree.parent[v];
        let k = lane(v as u32, u);
        x[k] = if u < 96 { flow[v] } else { x[k] };
    }
}

// How many places the plan's array has. Called for its promise: an array lent as a slice has a length that proofs know.
pub fn places(x: &[u32; 2048]) -> usize
    ensures { length x.now ≡ 2048 }
{
    let all: &[u32] = x;
    all.len()
}

// A cheapest plan at these amounts into x, where there is one, its potentials, and the tree that it is on. x is lent cleared; what it holds on lanes
// that are not the tree's stays.
pub fn solve(
    m: usize,
    n: usize,
    cost: &[u32; 2048],
    amounts: &[u32; 32],
    demand: &[u32; 96],
    x: &mut [u32; 2048],
    pot: &mut [u32; 96],
    tree: &mut Tree,
)
    ensures { (length x.new ≡ 2048) × (length pot.new ≡ 96) }
{
    tree.clear();
    let mut flow = [0u32; 128];
    let mut potentials = Potentials {
        source: [0u32; 32],
        key: [0u32; 64],
    };
    start(
        m,
        n,
        cost,
        amounts,
        demand,
        tree,
        &mut flow,
        &mut potentials,
    );
    simplex((m % 64) as u32, n, cost, tree, &mut flow, &mut potentials);
    places(x);
    carried(tree, &flow, x);
    potentials.write(pot);
}

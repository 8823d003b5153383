// The simplex: from a first tree, pivot after pivot, to one with no lane that is too cheap and no full lane that is too dear; and the plan and the
// potentials of a tree.
ghost use Rattle.std.specs.Prelude.{◌≡◌, ◌<◌, ◌≤◌, length};

use super::exchange::pivot;
use super::fits::fits;
use super::prices::{Lanes, fine_for, follow_fine};
use super::residuals::{above, half};
use super::start::start;
use simplex::potentials::Potentials;
use simplex::price::least;
use simplex::solve::{Pricing, next, places};
use spanningtree::flows::lane;
use spanningtree::tree::Tree;

// The passes of the first try, and of the second.
const PASSES: u32 = 20_000;

const AGAIN: u32 = 400;

// A lane that enters, by its terminal, how far its reduced cost is from 0, and whether it is full.
// Stays: a gap of 0 says that no lane enters. The gap is reckoned without a branch over the full lanes, and an Option made of it would be taken apart by the
// only caller.
#[derive(Drop)]
struct Enter {
    terminal: u32,
    gap: u32,
    full: bool,
}

// The bits of a word without its lowest.
fn others(word: u64) -> u64
    requires { 0 < word }
    ensures { result < word }
{
    word & (word - 1)
}

// The full lane of a source that is dearest for what it brings.
// Stays: no index is counted; the bits of a word are taken off one by one.
fn dearest(row: u32, full: u64, cost: &[u32; 2048], potentials: &Potentials) -> Enter {
    let base = potentials.source[(row % 32) as usize] % 33_554_432;
    let mut terminal: u32 = 0;
    let mut most: u32 = 33_554_432;
    let mut left = full;
    while 0 < left {
        let j = u64::trailing_zeros(left) % 64;
        let q = potentials.key[j as usize] % 2_147_483_648 / 64;
        let s = cost[((row % 32) * 64 + j) as usize].wrapping_add(base + q);
        if most < s {
            terminal = j;
            most = s;
        }
        left = others(left);
    }
    Enter {
        terminal,
        gap: most.wrapping_sub(33_554_432),
        full: true,
    }
}

// The source's cheapest lane, where it is too cheap, or its dearest full one; a gap of 0 where neither is.
fn entering(
    n: usize,
    row: u32,
    cost: &[u32; 2048],
    lanes: &Lanes,
    potentials: &Potentials,
) -> Enter {
    let i = (row % 32) as usize;
    let l = least(row, n, &lanes.price, &potentials.key);
    let s = l / 64 + potentials.source[i] % 33_554_432;
    if 33_554_432 <= s {
        return dearest(row, lanes.full[i], cost, potentials);
    }
    Enter {
        terminal: l % 64,
        gap: 33_554_432 - s,
        full: false,
    }
}

// A pivot at the source's lane that enters; else on to the next source.
fn step(
    m: u32,
    n: usize,
    now: Pricing,
    cost: &[u32; 2048],
    cap: &[u32; 2048],
    lanes: &mut Lanes,
    tree: &mut Tree,
    residual: &mut [u64; 128],
    potentials: &mut Potentials,
) -> Pricing
    ensures { lanes.new.fine ≡ lanes.old.fine }
{
    let row = now.row;
    let lane = entering(n, row, cost, lanes, potentials);
    if lane.gap == 0 {
        return Pricing {
            row: next(row, m),
            clean: now.clean % 64 + 1,
        };
    }
    pivot(
        row,
        32 + lane.terminal % 64,
        lane.gap,
        lane.full,
        cost,
        cap,
        lanes,
        tree,
        residual,
        potentials,
    );
    Pricing { row, clean: 0 }
}

// Until no source has a lane that enters, so many passes at most.
fn simplex(
    m: u32,
    n: usize,
    passes: u32,
    cost: &[u32; 2048],
    cap: &[u32; 2048],
    lanes: &mut Lanes,
    tree: &mut Tree,
    residual: &mut [u64; 128],
    potentials: &mut Potentials,
)
    ensures { lanes.new.fine ≡ lanes.old.fine }
{
    let mut now = Pricing { row: 0, clean: 0 };
    for _ in 0..passes {
        if m <= now.clean {
            return;
        }
        now = step(m, n, now, cost, cap, lanes, tree, residual, potentials);
    }
}

// Does a lane of the tree carry more than its ceiling?
fn exceeds(residual: &[u64; 128]) -> bool {
    let mut some = false;
    for v in 0..96 {
        some = some | (above(residual[v]) & (0 < half(residual[v], 0)));
    }
    some
}

// Where a lane carries more than its ceiling the fine grows, once, for a second try.
fn try_again(
    m: u32,
    n: usize,
    cost: &[u32; 2048],
    cap: &[u32; 2048],
    lanes: &mut Lanes,
    tree: &mut Tree,
    residual: &mut [u64; 128],
    potentials: &mut Potentials,
) {
    if !exceeds(residual) {
        return;
    }
    let small = lanes.fine;
    let fine = if small < 1_750_000 {
        4 * small
    } else {
        7_000_000
    };
    let more = fine.wrapping_sub(small);
    lanes.raise_fine(more, cost);
    follow_fine(more, tree, residual, potentials);
    simplex(m, n, AGAIN, cost, cap, lanes, tree, residual, potentials);
}

// What a lane of the tree carries, by its pair and its ceiling.
fn amount_of(own: u64, ceiling: u32) -> u32 {
    half(own, 0).wrapping_add(if above(own) { ceiling } else { 0 })
}

// What the lanes of the tree carry.
fn carried(tree: &Tree, residual: &[u64; 128], cap: &[u32; 2048], x: &mut [u32; 2048])
    requires { length x.old ≡ 2048 }
    ensures { length x.new ≡ 2048 }
{
    for v in 0..96 {
        let u = tree.parent[v];
        let k = lane(v as u32, u);
        let between = (u < 96) & ((u < 32) ^ (v < 32));
        x[k] = if between {
            amount_of(residual[v], cap[k])
        } else {
            x[k]
        };
    }
}

// What the full lanes of a source carry.
// Stays: no index is counted; the bits of a word are taken off one by one.
fn full_row(i: usize, full: u64, cap: &[u32; 2048], x: &mut [u32; 2048])
    requires i_bound { i < 32 }
    requires x_len { length x.old ≡ 2048 }
    ensures { length x.new ≡ 2048 }
{
    let mut left = full;
    while 0 < left {
        let k = i * 64 + (u64::trailing_zeros(left) % 64) as usize;
        x[k] = cap[k];
        left = others(left);
    }
}

// What all full lanes carry.
fn full_lanes(full: &[u64; 32], cap: &[u32; 2048], x: &mut [u32; 2048])
    requires { length x.old ≡ 2048 }
    ensures { length x.new ≡ 2048 }
{
    for i in 0..32 {
        full_row(i, full[i], cap, x);
    }
}

// The tree of a cheapest plan at these amounts with its potentials, and the lanes that are full.
fn best_tree(
    sources: usize,
    n: usize,
    cost: &[u32; 2048],
    cap: &[u32; 2048],
    amounts: &[u32; 32],
    demand: &[u32; 96],
    lanes: &mut Lanes,
    tree: &mut Tree,
    residual: &mut [u64; 128],
    potentials: &mut Potentials,
)
    requires { sources ≤ 32 }
{
    let m = sources as u32;
    start(
        sources, n, cost, cap, lanes, amounts, demand, tree, residual, potentials,
    );
    simplex(m, n, PASSES, cost, cap, lanes, tree, residual, potentials);
    try_again(m, n, cost, cap, lanes, tree, residual, potentials);
}

// A cheapest plan at these amounts into x, where there is one, its potentials, and the tree that it is on. x is lent cleared; what it holds on lanes that
// are neither the tree's nor full stays. Where a source or a terminal has not lanes enough nothing is tried.
pub fn solve(
    m: usize,
    n: usize,
    cost: &[u32; 2048],
    cap: &[u32; 2048],
    amounts: &[u32; 32],
    demand: &[u32; 96],
    x: &mut [u32; 2048],
    pot: &mut [u32; 96],
    tree: &mut Tree,
)
    ensures { (length x.new ≡ 2048) × (length pot.new ≡ 96) }
{
    tree.sources_below = [0u32; 128];
    tree.terminals_below = [0u64; 128];
    places(x);
    let sources = usize::min(m, 32);
    let terminals = usize::min(n, 64);
    if !fits(sources, terminals, cap, amounts, demand) {
        *pot = [0u32; 96];
        return;
    }
    let mut residual = [0u64; 128];
    let mut potentials = Potentials {
        source: [0u32; 32],
        key: [0u32; 64],
    };
    let mut lanes = Lanes {
        fine: fine_for(sources, terminals, cost),
        price: *cost,
        full: [0u64; 32],
    };
    lanes.close(sources, terminals, cap);
    best_tree(
        sources,
        terminals,
        cost,
        cap,
        amounts,
        demand,
        &mut lanes,
        tree,
        &mut residual,
        &mut potentials,
    );
    carried(tree, &residual, cap, x);
    full_lanes(&lanes.full, cap, x);
    potentials.write(pot);
}

// One pivot: a lane comes into the tree, and one on the cycle that it closes leaves; or the lane goes over from empty to full or back, and the tree stays.
ghost use Rattle.std.specs.Prelude.{◌≡◌, ◌<◌};

use super::leaving::{Leave, from_source, from_terminal};
use super::prices::Lanes;
use super::residuals::{VAST, above, gain, loss, pair};
use simplex::potentials::Potentials;
use spanningtree::NONE;
use spanningtree::flows::{Gain, lane};
use spanningtree::tree::{Part, Tree};

// The lane between v and u, source and terminal, is full, if it is one.
fn fill_between(v: u32, u: u32, cost: &[u32; 2048], cap: &[u32; 2048], lanes: &mut Lanes)
    ensures { lanes.new.fine ≡ lanes.old.fine }
{
    if (v < 32) ^ (u < 32) {
        lanes.fill(lane(v, u), cost, cap);
    }
}

// The part of node is taken from its place and attached to host by end; what the lanes above sources and terminals change by on the way up from the
// source's end.
fn move_part(
    node: u32,
    end: u32,
    host: u32,
    top: u32,
    own: u64,
    change: Gain<u64>,
    tree: &mut Tree,
    residual: &mut [u64; 128],
) {
    let part = tree.part(node);
    let from = tree.above(node);
    tree.toggle_part(from, top, part, change, residual);
    tree.toggle_part(host, top, part, change.turned(), residual);
    tree.reverse_path(node, end, host, own, part, change, residual);
}

// The entering lane goes over from empty to full, or back: what its cycle's lanes carry changes, and nothing else.
fn go_round(i: u32, j: u32, top: u32, change: Gain<u64>, tree: &mut Tree, residual: &mut [u64; 128])
    ensures { tree.new.parent ≡ tree.old.parent }
{
    let none = Part {
        sources: 0,
        terminals: 0,
    };
    tree.toggle_part(i, top, none, change, residual);
    tree.toggle_part(j, top, none, change.turned(), residual);
}

// The pair of an entering lane that carries amount, or, where it was full, so much less than its ceiling; above the ceiling, where it is over.
fn own_pair(ceiling: u32, amount: u32, less: bool, over: bool) -> u64 {
    if over {
        return pair(amount, VAST);
    }
    let rest = ceiling.wrapping_sub(amount);
    if less {
        pair(rest, amount)
    } else {
        pair(amount, rest)
    }
}

// The entering lane k is in the tree: it is full no longer; above its ceiling its price keeps the fine.
fn enter(k: usize, less: bool, cost: &[u32; 2048], lanes: &mut Lanes)
    requires { k < 2048 }
    ensures { lanes.new.fine ≡ lanes.old.fine }
{
    if less {
        lanes.empty(k, cost);
    } else {
        lanes.unfill(k);
    }
}

// The lane above node leaves the tree: it is full where it gained, or was above its ceiling.
fn leave(
    node: u32,
    here: bool,
    cost: &[u32; 2048],
    cap: &[u32; 2048],
    lanes: &mut Lanes,
    tree: &Tree,
    residual: &[u64; 128],
)
    ensures { lanes.new.fine ≡ lanes.old.fine }
{
    let gains = (node < 32) ^ here;
    if gains | above(residual[(node % 128) as usize]) {
        fill_between(node, tree.above(node), cost, cap, lanes);
    }
}

// The lane that leaves where lane k comes in, from source i to terminal j: over, above its ceiling.
fn ratio_test(
    i: u32,
    j: u32,
    ceiling: u32,
    less: bool,
    over: bool,
    tree: &Tree,
    residual: &[u64; 128],
) -> Leave {
    let own = if over { VAST } else { ceiling };
    let shift = if less { 32u32 } else { 0u32 };
    let bit = 1u64 << (j % 128 + 32) % 64;
    let near = from_source(i, bit, shift, own, tree, residual);
    from_terminal(j, near, shift, tree, residual)
}

// The part of far's node rises by d and moves to the other end of the entering lane, whose pair is own.
fn exchange(
    i: u32,
    j: u32,
    d: u32,
    here: bool,
    own: u64,
    far: Leave,
    tree: &mut Tree,
    residual: &mut [u64; 128],
    potentials: &mut Potentials,
) {
    let node = far.node;
    let rise = if here { d } else { 0u32.wrapping_sub(d) };
    potentials.raise(tree.part(node), tree.part(0), rise);
    let first = far.first;
    move_part(
        node,
        if first { i } else { j },
        if first { j } else { i },
        far.top,
        own,
        changes(far.amount, here),
        tree,
        residual,
    );
}

// What a pair changes by where its lane loses an amount, or gains it.
fn changed(amount: u32, loses: bool) -> u64 {
    if loses { loss(amount) } else { gain(amount) }
}

// What the pairs of the lanes above sources and above terminals change by: the one loses what the other gains.
fn changes(amount: u32, here: bool) -> Gain<u64> {
    Gain {
        source: changed(amount, here),
        terminal: changed(amount, !here),
    }
}

// The pivot at the lane from source i to terminal j, a node, that is d too cheap, or, where it is full, d too dear.
pub fn pivot(
    i: u32,
    j: u32,
    d: u32,
    less: bool,
    cost: &[u32; 2048],
    cap: &[u32; 2048],
    lanes: &mut Lanes,
    tree: &mut Tree,
    residual: &mut [u64; 128],
    potentials: &mut Potentials,
)
    ensures { lanes.new.fine ≡ lanes.old.fine }
{
    let k = ((i % 32) * 64 + (j % 128 + 32) % 64) as usize;
    let over = !less & (lanes.price[k] != cost[k]);
    let far = ratio_test(i, j, cap[k], less, over, tree, residual);
    let here = far.first ^ less;
    if far.node == NONE {
        if less {
            lanes.empty(k, cost);
        } else {
            lanes.fill(k, cost, cap);
        }
        go_round(i, j, far.top, changes(far.amount, here), tree, residual);
        return;
    }
    let own = own_pair(cap[k], far.amount, less, over);
    enter(k, less, cost, lanes);
    leave(far.node, here, cost, cap, lanes, tree, residual);
    exchange(i, j, d, here, own, far, tree, residual, potentials);
}

// One pivot: the lane from source i to terminal j comes into the tree, and one on the way between them leaves.
use super::potentials::Potentials;
use spanningtree::NONE;
use spanningtree::flows::Gain;
use spanningtree::tree::Tree;

// The node whose lane to the node above leaves the tree, and what that carries; top is where the ways up from i and from j meet.
// Stays: an Option is no plainer: whatever number stands for a node is taken modulo 128, NONE as any other, and it is asked once, at the end.
#[derive(Drop)]
struct Leave {
    node: u32,
    amount: u32,
    first: bool,
    top: u32,
}

// From i, a source, up to the first node that has j, of this bit, below it. The lanes above sources lose drums.
fn from_source(i: u32, bit: u64, tree: &Tree, flow: &[u32; 128]) -> Leave {
    let mut node = NONE;
    let mut amount = u32::MAX;
    let mut a = i;
    for _ in 0..48 {
        let v = (a % 128) as usize;
        if tree.terminals_below[v] & bit != 0 {
            return Leave {
                node,
                amount,
                first: true,
                top: a,
            };
        }
        if flow[v] < amount {
            node = a;
            amount = flow[v];
        }
        let b = tree.parent[v];
        let w = (b % 128) as usize;
        if tree.terminals_below[w] & bit != 0 {
            return Leave {
                node,
                amount,
                first: true,
                top: b,
            };
        }
        a = tree.parent[w];
    }
    Leave {
        node,
        amount,
        first: true,
        top: NONE,
    }
}

// From j, a terminal, up to there, where the lanes above terminals do; also where one carries as little.
fn from_terminal(j: u32, far: Leave, tree: &Tree, flow: &[u32; 128]) -> Leave {
    let top = far.top;
    let mut node = far.node;
    let mut amount = far.amount;
    let mut first = true;
    let mut a = j;
    for _ in 0..48 {
        if a == top {
            break;
        }
        let v = (a % 128) as usize;
        if flow[v] <= amount {
            node = a;
            amount = flow[v];
            first = false;
        }
        let b = tree.parent[v];
        if b == top {
            break;
        }
        a = tree.parent[(b % 128) as usize];
    }
    Leave {
        node,
        amount,
        first,
        top,
    }
}

// What the lanes above sources and those above terminals gain on the way up from the source's end, where that lane leaves.
fn lost(amount: u32, first: bool) -> Gain<u32> {
    let back = 0u32.wrapping_sub(amount);
    Gain {
        source: if first { back } else { amount },
        terminal: if first { amount } else { back },
    }
}

// The pivot at a lane that is d too cheap.
pub fn pivot(
    i: u32,
    j: u32,
    d: u32,
    tree: &mut Tree,
    flow: &mut [u32; 128],
    potentials: &mut Potentials,
) {
    let bit = 1u64 << (j % 128 + 32) % 64;
    let near = from_source(i, bit, tree, flow);
    let far = from_terminal(j, near, tree, flow);
    let node = far.node;
    let first = far.first;
    let part = tree.part(node);
    let from = tree.above(node);
    let gain = lost(far.amount, first);
    let rise = if first { d } else { 0u32.wrapping_sub(d) };
    let end = if first { i } else { j };
    let host = if first { j } else { i };
    tree.toggle_part(from, far.top, part, gain, flow);
    tree.toggle_part(host, far.top, part, gain.turned(), flow);
    tree.reverse_path(node, end, host, far.amount, part, gain, flow);
    potentials.raise(part, tree.part(0), rise);
}

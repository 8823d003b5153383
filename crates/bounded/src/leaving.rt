// The lane that leaves the tree: the ratio test both ways on the cycle that an entering lane closes.
// Stays: these walks are no twins of the simplex's without ceilings: there only every second lane of a way can leave, here each.
use super::residuals::half;
use spanningtree::NONE;
use spanningtree::tree::Tree;

// The node whose lane to its parent leaves the tree, NONE where the entering lane itself bears least, and what can go round; whether the node is on the
// way up from the source; top is where the ways up from both ends meet.
// Stays: an Option is no plainer: whatever number stands for a node is taken modulo 128, NONE as any other, and it is asked once, at the end.
#[derive(Drop)]
pub struct Leave {
    pub node: u32,
    pub amount: u32,
    pub first: bool,
    pub top: u32,
}

// From source i up to the first node that has the terminal of this bit below it. The lanes above sources lose drums and the others gain (shift 0), or
// the other way round (shift 32). The entering lane itself bears own.
pub fn from_source(
    i: u32,
    bit: u64,
    shift: u32,
    own: u32,
    tree: &Tree,
    residual: &[u64; 128],
) -> Leave {
    let mut node = NONE;
    let mut amount = own;
    let mut a = i;
    let mut top = NONE;
    for _ in 0..48 {
        let v = (a % 128) as usize;
        if tree.terminals_below[v] & bit != 0 {
            top = a;
            break;
        }
        let r = half(residual[v], shift);
        if r < amount {
            node = a;
            amount = r;
        }
        let b = tree.parent[v];
        let w = (b % 128) as usize;
        if tree.terminals_below[w] & bit != 0 {
            top = b;
            break;
        }
        let t = half(residual[w], 32 ^ shift);
        if t < amount {
            node = b;
            amount = t;
        }
        a = tree.parent[w];
    }
    Leave {
        node,
        amount,
        first: true,
        top,
    }
}

// From terminal j up to there, where lanes above terminals do what those above sources do on the other way; also where one bears as little.
pub fn from_terminal(j: u32, far: Leave, shift: u32, tree: &Tree, residual: &[u64; 128]) -> Leave {
    let top = far.top;
    let mut node = far.node;
    let mut amount = far.amount;
    let mut first = true;
    let mut a = j;
    for _ in 0..48 {
        if a == top {
            break;
        }
        let v = (a % 128) as usize;
        let r = half(residual[v], shift);
        if r <= amount {
            node = a;
            amount = r;
            first = false;
        }
        let b = tree.parent[v];
        if b == top {
            break;
        }
        let w = (b % 128) as usize;
        let t = half(residual[w], 32 ^ shift);
        if t <= amount {
            node = b;
            amount = t;
            first = false;
        }
        a = tree.parent[w];
    }
    Leave {
        node,
        amount,
        first,
        top,
    }
}

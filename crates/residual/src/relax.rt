// One pass over the arcs out of a node: each node that an open arc leads to is offered a label and a key.
ghost use Rattle.std.specs.Prelude.{◌≡◌, cond, List, ℕ, ◌+◌, ◌-◌, ◌*◌, ◌≤◌, ◌<◌};
ghost use Rattle.residual.specs.inner.Cells.{cells};
ghost use Rattle.residual.specs.inner.Network.{Net, net};
ghost use Rattle.residual.specs.inner.Labels.{far, Offered, Relabelled, Wins, RowReady, ColumnReady, RelaxReady};
ghost use Rattle.residual.specs.inner.LanesInUse.{AtNode};
ghost use Rattle.residual.specs.inner.Keys.{Rekeyed, Next, Named, RowKey, Bits, Tags};

use crate::lanes::{Flow, Lanes};

// Above every key.
pub const SHUT: u32 = 4_000_000_000;

// a where take says so, else b.
// Stays: the four choices below would be four ifs, each longer than its call.
fn pick(take: bool, a: u32, b: u32) -> u32
    ensures { result ≡ cond take a b }
{
    if take { a } else { b }
}

// Is a label t over a lane of x drums to be taken in place of old?
fn wins(t: u32, old: u32, x: u32, cap: u32) -> bool
    ensures { Wins t old x cap result }
{
    if old <= t {
        return false;
    }
    if cap <= x {
        return false;
    }
    true
}

// The key of a label: twice what it is above the potential, and one more at a node without room, so that of two nodes as near one with room
// comes first.
fn key_of(t: u32, pot: u32, full: u32) -> u32
    requires { (pot ≤ t) × (t ≤ far) × (full ≤ 1) }
    ensures { result ≡ 2 * (t - pot) + full }
{
    2 * (t - pot) + full
}

// The same of a terminal that a lane of x drums leads to. Where these are all that it gets, no way leads on from it, and it has no key.
fn row_key(x: u32, want: u32, t: u32, pot: u32, full: u32) -> u32
    requires { (pot ≤ t) × (t ≤ far) × (full ≤ 1) }
    ensures { RowKey x want t pot result }
{
    if x == want {
        return SHUT;
    }
    key_of(t, pot, full)
}

// Offers node w a label and a key.
fn offer(
    w: usize,
    take: bool,
    t: u32,
    from: u32,
    f: u32,
    dist: &mut [u32; 96],
    prev: &mut [u32; 96],
    key: &mut [u32; 96],
)
    requires { w < 96 }
    ensures { Offered take w t from f dist.old dist.new prev.old prev.new
        key.old key.new }
{
    dist[w] = pick(take, t, dist[w]);
    prev[w] = pick(take, from, prev[w]);
    key[w] = pick(take, f, key[w]);
}

// Offers each terminal that source i still has room to serve a path through that source.
fn relax_row(
    lanes: &Lanes<'_>,
    flow: &Flow,
    i: usize,
    base: u32,
    full: &[u32; 96],
    want: &[u32; 96],
    dist: &mut [u32; 96],
    prev: &mut [u32; 96],
    key: &mut [u32; 96],
)
    requires row_ready { RowReady lanes.now.n (cells lanes.now.cost.now) (cells lanes.now.cap.now) (cells flow.now.x) flow.now.pot i base dist.old
        prev.old key.old }
    requires tags { Tags full.now want.now }
    ensures by_index { (m : ℕ) → i < m → m ≤ 32 →
        Relabelled (net m lanes.now.n lanes.now.cost.now lanes.now.cap.now flow.now.x) i base dist.old prev.old
        dist.new prev.new }
    ensures by_index_2 { (m : ℕ) → i < m → m ≤ 32 →
        Rekeyed (net m lanes.now.n lanes.now.cost.now lanes.now.cap.now flow.now.x) want.now i flow.now.pot
        dist.old dist.new key.old key.new }
{
    let cost = lanes.cost;
    let cap = lanes.cap;
    let x = &flow.x;
    let pot = &flow.pot;
    for j in 0..lanes.n {
        let k = i * 64 + j;
        let w = 32 + j;
        let t = base + cost[k];
        let drums = x[k];
        let old = dist[w];
        let take = wins(t, old, drums, cap[k]);
        let f = row_key(drums, want[w], pick(take, t, old), pot[w], full[w]);
        offer(w, take, t, i as u32, f, dist, prev, key);
    }
}

// Node i in place of next, where its label was taken and its key is at most level.
fn named(take: bool, d: u32, level: u32, i: usize, next: usize) -> usize
    ensures { Named take d level i next result }
{
    if take {
        if d <= level {
            return i;
        }
    }
    next
}

// Offers each source that serves terminal v - 32 a path back through that terminal; serves has the sources to look at, bit by bit.
// One of them that is as near as the terminal, or 96.
fn relax_column(
    cost: &[u32; 2048],
    flow: &Flow,
    v: usize,
    base: u32,
    level: u32,
    full: &[u32; 96],
    dist: &mut [u32; 96],
    prev: &mut [u32; 96],
    key: &mut [u32; 96],
) -> usize
    requires column_ready { ColumnReady (cells cost.now) (cells flow.now.x) flow.now.serves flow.now.pot v base dist.old prev.old key.old }
    requires bits { Bits full.now }
    ensures by_index { (m n : ℕ) (cap : List ℕ) → AtNode m n flow.now.x flow.now.serves v →
        Relabelled (net m n cost.now cap flow.now.x) v base dist.old prev.old dist.new prev.new }
    ensures rekeyed { (N : Net) (want : List ℕ) →
        Rekeyed N want v flow.now.pot dist.old dist.new key.old key.new }
    ensures next { Next key.new level 32 result }
{
    let x = &flow.x;
    let pot = &flow.pot;
    let j = v - 32;
    let mut next: usize = 96;
    let mut rest = flow.serves[j];
    // Stays: no index is counted; the bits of a word are taken off one by one.
    while 0 < rest {
        let i = u32::trailing_zeros(rest) as usize;
        rest = rest & (rest - 1);
        let k = i * 64 + j;
        if 0 < x[k] {
            let t = base - cost[k];
            let take = wins(t, dist[i], 0, x[k]);
            let f = key_of(t, pot[i], full[i]);
            offer(i, take, t, v as u32, f, dist, prev, key);
            next = named(take, f, level, i, next);
        }
    }
    next
}

// Offers each node that an open arc out of v leads to a path through v. A node that is as near as v, or 96. Any of the nodes as near will do: they
// are settled in any order. The labels are fixed, a key but for its last bit.
pub fn relax(
    lanes: &Lanes<'_>,
    flow: &Flow,
    v: usize,
    base: u32,
    level: u32,
    full: &[u32; 96],
    want: &[u32; 96],
    dist: &mut [u32; 96],
    prev: &mut [u32; 96],
    key: &mut [u32; 96],
) -> usize
    requires relax_ready { RelaxReady lanes.now.n (cells lanes.now.cost.now) (cells lanes.now.cap.now) (cells flow.now.x) flow.now.serves flow.now.pot
        v base dist.old prev.old key.old }
    requires tags { Tags full.now want.now }
    ensures by_index { (m : ℕ) → AtNode m lanes.now.n flow.now.x flow.now.serves v →
        Relabelled (net m lanes.now.n lanes.now.cost.now lanes.now.cap.now flow.now.x) v base dist.old prev.old
        dist.new prev.new }
    ensures by_index_2 { (m : ℕ) → AtNode m lanes.now.n flow.now.x flow.now.serves v →
        Rekeyed (net m lanes.now.n lanes.now.cost.now lanes.now.cap.now flow.now.x) want.now v flow.now.pot
        dist.old dist.new key.old key.new }
    ensures next { Next key.new level 32 result }
{
    if v < 32 {
        relax_row(lanes, flow, v, base, full, want, dist, prev, key);
        return 96;
    }
    relax_column(lanes.cost, flow, v, base, level, full, dist, prev, key)
}

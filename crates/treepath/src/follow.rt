// The path of a stretch as a tree has it, from plant 2 back to plant 1: each arc is checked to be open and tight.
ghost use Rattle.std.specs.Prelude.{◌≡◌, true, ◌+◌, ◌≤◌, ◌<◌, length, IfOk};
ghost use Rattle.residual.specs.inner.Network.{net};
ghost use Rattle.treepath.specs.inner.Follow.{FollowReady, Bears, Followed};

use residual::lanes::{Flow, Lanes};

// Do the potentials of a lane's ends differ by its unit cost?
fn even(cost: u32, p: u32, q: u32) -> bool
    requires { (cost ≤ 2000000) × (p ≤ 800000000) }
    ensures { result ≡ true → cost + p ≡ q }
{
    if cost + p == q {
        return true;
    }
    false
}

// What the return arc from terminal w to source v can carry, if its lane is in use and it is tight; else 0.
fn tied_back(lanes: &Lanes<'_>, flow: &Flow, v: usize, w: usize) -> u32
    requires follow_ready { FollowReady lanes.now.m lanes.now.n lanes.now.cost.now flow.now.pot }
    requires lt_m { v < lanes.now.m }
    ensures { 0 < result → Bears (net lanes.now.m lanes.now.n lanes.now.cost.now lanes.now.cap.now flow.now.x) flow.now.pot w v result }
{
    if w < 32 {
        return 0;
    }
    if 32 + lanes.n <= w {
        return 0;
    }
    let k = v * 64 + (w - 32);
    if even(lanes.cost[k], flow.pot[v], flow.pot[w]) {
        return flow.x[k];
    }
    0
}

// What the lane from source w to terminal v can still take, if it is tight; else 0.
fn tied_ahead(lanes: &Lanes<'_>, flow: &Flow, v: usize, w: usize) -> u32
    requires follow_ready { FollowReady lanes.now.m lanes.now.n lanes.now.cost.now flow.now.pot }
    requires v_lt { (32 ≤ v) × (v < 32 + lanes.now.n) }
    ensures { 0 < result → Bears (net lanes.now.m lanes.now.n lanes.now.cost.now lanes.now.cap.now flow.now.x) flow.now.pot w v result }
{
    if lanes.m <= w {
        return 0;
    }
    let k = w * 64 + (v - 32);
    if lanes.cap[k] <= flow.x[k] {
        return 0;
    }
    if even(lanes.cost[k], flow.pot[w], flow.pot[v]) {
        return lanes.cap[k] - flow.x[k];
    }
    0
}

// What the arc from w to v can carry, if it is open and tight; else 0.
fn tied(lanes: &Lanes<'_>, flow: &Flow, v: usize, w: usize) -> u32
    requires follow_ready { FollowReady lanes.now.m lanes.now.n lanes.now.cost.now flow.now.pot }
    requires v_lt_m { (v < 32 → v < lanes.now.m) × (32 ≤ v → v < 32 + lanes.now.n) }
    ensures { 0 < result → Bears (net lanes.now.m lanes.now.n lanes.now.cost.now lanes.now.cap.now flow.now.x) flow.now.pot w v result }
{
    if v < 32 {
        return tied_back(lanes, flow, v, w);
    }
    tied_ahead(lanes, flow, v, w)
}

// The arcs of the tree's path, and how many drums can go along it.
#[derive(Drop)]
pub struct Traced {
    pub count: u32,
    pub amount: u32,
}

// The way from plant 2 up the tree, for limit drums at most: does it lead to plant 1? It ends there, or where an arc is not open or not tight, or
// after as many arcs as no path has. For each node on it but the last, prev then has the node before it; its other cells stay. Where it does not lead
// there, the node whose arc ended it, of which nothing is promised. Any Err will do: a path is then searched for.
pub fn follow(
    lanes: &Lanes<'_>,
    flow: &Flow,
    parent: &[u32; 128],
    limit: u32,
    prev: &mut [u32; 96],
) -> Result<Traced, u32>
    requires follow_ready { FollowReady lanes.now.m lanes.now.n lanes.now.cost.now flow.now.pot }
    requires lt_m { 1 < lanes.now.m }
    requires prev_len { length prev.old ≡ 96 }
    ensures prev_len_2 { length prev.new ≡ 96 }
    ensures followed { IfOk result (λ t.
        Followed (net lanes.now.m lanes.now.n lanes.now.cost.now lanes.now.cap.now flow.now.x) flow.now.pot limit prev.new
        t.count t.amount) }
{
    let mut v: usize = 1;
    let mut amount = limit;
    for before in 0..95 {
        let w = (parent[v] % 128) as usize;
        let room = tied(lanes, flow, v, w);
        if room == 0 {
            return Err(v as u32);
        }
        prev[v] = w as u32;
        amount = u32::min(amount, room);
        if w == 0 {
            return Ok(Traced {
                count: before + 1,
                amount,
            });
        }
        v = w;
    }
    Err(1)
}

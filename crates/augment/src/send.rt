// The send: the potentials after a search, the walk back over its path, the lanes that it brings drums on, all together.
ghost use Rattle.std.specs.Prelude.{◌≡◌, ◌+◌, ◌-◌, ◌≤◌, ◌<◌, get_or, set};
ghost use Rattle.residual.specs.inner.Network.{net};
ghost use Rattle.residual.specs.inner.LanesInUse.{Covers};
ghost use Rattle.paths.specs.inner.Search.{Wanted};
ghost use Rattle.augment.specs.inner.Send.{SendReady, SendDone};
ghost use Rattle.augment.specs.inner.LaneMarks.{Trail, Served, Marks};
ghost use Rattle.augment.specs.inner.Potentials.{LowerReady, Lowered};
ghost use Rattle.augment.specs.inner.PathWalk.{CarryReady, Carried, Walkable, Walked};
ghost use Rattle.augment.specs.inner.PathMeasure.{ResidualReady, Residual, Route, Measured};

use paths::search::search;
use residual::lanes::{Flow, Lanes};

// Lowers the potential of each node that is nearer than gap by what it is nearer.
pub fn lower(gap: u32, dist: &[u32; 96], pot: &mut [u32; 96])
    requires { LowerReady gap dist.now pot.old }
    ensures { Lowered gap dist.now pot.old 96 pot.new }
{
    for v in 0..96 {
        pot[v] = pot[v].min(dist[v] - gap);
    }
}

fn take(k: usize, amount: u32, x: &mut [u32; 2048])
    requires { (k < 2048) × (amount ≤ get_or x.old k 0) }
    ensures { x.new ≡ set x.old k (get_or x.old k 0 - amount) }
{
    x[k] = x[k] - amount;
}

fn give(k: usize, amount: u32, x: &mut [u32; 2048])
    requires { (k < 2048) × (get_or x.old k 0 + amount ≤ 4000000000) }
    ensures { x.new ≡ set x.old k (get_or x.old k 0 + amount) }
{
    x[k] = x[k] + amount;
}

// Carries amount over the arc from w to v.
pub fn carry(v: usize, w: usize, amount: u32, x: &mut [u32; 2048])
    requires { CarryReady v w amount x.old }
    ensures { Carried v w amount x.old x.new }
{
    if v < 32 {
        take(v * 64 + (w - 32), amount, x);
    } else {
        give(w * 64 + (v - 32), amount, x);
    }
}

// Notes that source w serves terminal v - 32, where the arc from w to v leads to a terminal.
pub fn serve(v: usize, w: usize, serves: &mut [u32; 64])
    requires { (v < 96) × (32 ≤ v → w < 32) }
    ensures { Served v w serves.old serves.new }
{
    if 32 <= v {
        serves[v - 32] = serves[v - 32] | (1 << w);
    }
}

// v, where it is a source whose lane to terminal w - 32 is empty; else what was found before.
fn drained(v: usize, w: usize, x: &[u32; 2048], before: Option<u32>) -> Option<u32> {
    if 32 <= v {
        return before;
    }
    if x[v * 64 + (w % 64 + 32) % 64] == 0 {
        return Some(v as u32);
    }
    before
}

// Carries amount over the last count arcs of the path to goal, and notes the lanes that they bring drums on. The last source on the way back from goal
// whose lane lost its last drums, if there is one. Any answer will do there: a hint, of which nothing is promised.
pub fn push(
    prev: &[u32; 96],
    count: u32,
    goal: usize,
    amount: u32,
    x: &mut [u32; 2048],
    serves: &mut [u32; 64],
) -> Option<u32>
    requires walkable { Walkable prev.now amount count goal x.old }
    requires trail { Trail 32 prev.now count goal }
    ensures walked { Walked prev.now amount count goal x.old x.new }
    ensures marks { Marks prev.now count goal serves.old serves.new }
{
    let mut v = goal;
    let mut last = None;
    for _ in 0..count {
        let w = prev[v] as usize;
        carry(v, w, amount, x);
        serve(v, w, serves);
        last = drained(v, w, x, last);
        v = w;
    }
    last
}

// What the arc from w to v can carry: the drums of a lane in use backwards, or what a lane can still take.
fn residual(v: usize, w: usize, x: &[u32; 2048], cap: &[u32; 2048]) -> u32
    requires { ResidualReady v w x.now cap.now }
    ensures { Residual v w x.now cap.now result }
{
    if v < 32 {
        return x[v * 64 + (w - 32)];
    }
    let k = w * 64 + (v - 32);
    cap[k] - x[k]
}

// The arcs of a path, and how many drums can go along it.
#[derive(Drop)]
pub struct Way {
    pub count: u32,
    pub amount: u32,
}

// The way from start to goal that a search found, for limit drums at most.
pub fn measure(
    prev: &[u32; 96],
    start: usize,
    goal: usize,
    limit: u32,
    x: &[u32; 2048],
    cap: &[u32; 2048],
) -> Way
    requires { Route prev.now x.now cap.now start goal limit }
    ensures { Measured prev.now x.now cap.now start goal limit result.count result.amount }
{
    let mut v = goal;
    let mut count: u32 = 0;
    let mut amount = limit;
    // Stays: the walk goes from node to node, and its length is what it finds.
    while v != start {
        let w = prev[v] as usize;
        amount = amount.min(residual(v, w, x, cap));
        v = w;
        count = count + 1;
    }
    Way { count, amount }
}

// Where a send went, and how much.
#[derive(Drop)]
pub struct Sent {
    pub goal: usize,
    pub amount: u32,
}

// Sends up to limit along a cheapest path from a source to a node that has room, if there is a path to one. Any cheapest path will do: the plan after
// it is slack.
pub fn send(
    lanes: &Lanes<'_>,
    room: &[u32; 96],
    demand: &[u32; 96],
    start: usize,
    limit: u32,
    flow: &mut Flow,
) -> Option<Sent>
    requires send_ready { SendReady (net lanes.now.m lanes.now.n lanes.now.cost.now lanes.now.cap.now flow.old.x) flow.old.pot room.now start limit
        flow.old.x }
    requires wanted { Wanted (net lanes.now.m lanes.now.n lanes.now.cost.now lanes.now.cap.now flow.old.x) demand.now }
    requires covers { Covers lanes.now.m lanes.now.n flow.old.x flow.old.serves }
    ensures send_done { SendDone (net lanes.now.m lanes.now.n lanes.now.cost.now lanes.now.cap.now flow.old.x) flow.old.pot room.now start
        limit flow.old.x flow.new.x flow.new.pot result }
    ensures covers_2 { Covers lanes.now.m lanes.now.n flow.new.x flow.new.serves }
{
    let found = search(lanes, flow, room, demand, start);
    let goal = found.goal?;
    let dist = found.dist;
    let prev = found.prev;
    let way = measure(&prev, start, goal, limit, &flow.x, lanes.cap);
    let amount = way.amount.min(room[goal]);
    push(
        &prev,
        way.count,
        goal,
        amount,
        &mut flow.x,
        &mut flow.serves,
    );
    let gap = dist[goal] - flow.pot[goal];
    lower(gap, &dist, &mut flow.pot);
    Some(Sent { goal, amount })
}

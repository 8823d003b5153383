// The path search: the nearest node is settled, and the arcs out of it are passed over, up to a node that has room.
ghost use Rattle.std.specs.Prelude.{◌≡◌, ℕ, Some, ◌+◌, ◌≤◌, ◌<◌, length};
ghost use Rattle.residual.specs.inner.Network.{net, get};
ghost use Rattle.residual.specs.inner.LanesInUse.{Covers};
ghost use Rattle.residual.specs.inner.Keys.{Bits};
ghost use Rattle.paths.specs.inner.NearestNode.{LeastKey, Held, ClosestNode, Chosen};
ghost use Rattle.paths.specs.inner.Search.{SearchReady, Wanted, Blank, Answered, node_of};
ghost use Rattle.paths.specs.inner.NodeTags.{Whole, Tagged, PlanTagged};

use residual::lanes::{Flow, Lanes};
use residual::relax::{SHUT, relax};

// Above every label.
pub const FAR: u32 = 2_000_000_000;

// The least key of the nodes from lo up to hi, or SHUT.
fn least_key(lo: usize, hi: usize, key: &[u32; 96]) -> u32
    requires { (lo ≤ hi) × (hi ≤ 96) }
    ensures { LeastKey key.now lo hi result }
{
    let mut least = SHUT;
    for v in lo..hi {
        least = key[v].min(least);
    }
    least
}

// The first node from lo on whose key is least.
fn holder(lo: usize, least: u32, key: &[u32; 96]) -> usize
    requires { Held key.now lo 96 least }
    ensures { (result < 96) × (get key.now result ≡ least) }
{
    let mut v = lo;
    // Stays: a test of a key for each node; position over a slice would take the end of the slice for one more case, which never comes.
    while key[v] != least {
        v = v + 1;
    }
    v
}

// The nearest node that is not settled, or 96: of the m sources and the n terminals, since no other node has a label.
fn nearest(m: usize, n: usize, key: &[u32; 96]) -> usize
    requires { (m ≤ 32) × (n ≤ 64) }
    ensures { ClosestNode m n key.now result }
{
    let source = least_key(0, m, key);
    let terminal = least_key(32, 32 + n, key);
    if source < terminal {
        return holder(0, source, key);
    }
    if terminal == SHUT {
        return 96;
    }
    holder(32, terminal, key)
}

// The node named, or if none is, the nearest.
fn choose(m: usize, n: usize, next: usize, key: &[u32; 96]) -> usize
    requires { (m ≤ 32) × (n ≤ 64) }
    ensures { Chosen m n key.now next result }
{
    // Stays: a pass names a node by a number without a branch; a tag beside the number would be written at each offer.
    if next < 96 {
        return next;
    }
    nearest(m, n, key)
}

// What a search has found: the goal, if there is one, and for each node its distance and the node before it.
#[derive(Drop)]
pub struct Paths {
    pub goal: Option<usize>,
    pub dist: [u32; 96],
    pub prev: [u32; 96],
}

// Settles node after node, nearest first by reduced costs, up to the first that has room, which is the goal. The key of a node that
// has a label and is not settled comes from its reduced distance, of any other it is SHUT.
fn explore(
    lanes: &Lanes<'_>,
    flow: &Flow,
    room: &[u32; 96],
    full: &[u32; 96],
    want: &[u32; 96],
    start: usize,
    blank: Paths,
) -> Paths
    requires search_ready { SearchReady (net lanes.now.m lanes.now.n lanes.now.cost.now lanes.now.cap.now flow.now.x) flow.now.pot start }
    requires plan_tagged { PlanTagged (net lanes.now.m lanes.now.n lanes.now.cost.now lanes.now.cap.now flow.now.x) room.now full.now want.now }
    requires blank { Blank blank.dist blank.prev }
    requires covers { Covers lanes.now.m lanes.now.n flow.now.x flow.now.serves }
    ensures answered { Answered (net lanes.now.m lanes.now.n lanes.now.cost.now lanes.now.cap.now flow.now.x) flow.now.pot room.now start
        result.dist result.prev (node_of result.goal) }
    ensures goal { (g : ℕ) → result.goal ≡ Some g → g < 96 }
{
    let m = lanes.m;
    let n = lanes.n;
    let mut dist = blank.dist;
    let mut prev = blank.prev;
    let mut key = [SHUT; 96];
    dist[start] = flow.pot[start];
    key[start] = 0;
    let mut next = start;
    for pass in 0u64..96 {
        let v = choose(m, n, next, &key);
        if v == 96 {
            return Paths {
                goal: None,
                dist,
                prev,
            };
        }
        if 0 < room[v] {
            return Paths {
                goal: Some(v),
                dist,
                prev,
            };
        }
        let level = key[v];
        key[v] = SHUT;
        let base = dist[v];
        next = relax(
            lanes, flow, v, base, level, full, want, &mut dist, &mut prev, &mut key,
        );
    }
    Paths {
        goal: None,
        dist,
        prev,
    }
}

// 1 where there is no room.
fn full_bit(room: u32) -> u32
    ensures { result ≤ 1 }
{
    if room == 0 { 1 } else { 0 }
}

// All that a terminal without room gets; SHUT where it has room or gets nothing.
fn whole(room: u32, demand: u32) -> u32
    ensures { Whole room demand result }
{
    if 0 < room {
        return SHUT;
    }
    if demand == 0 {
        return SHUT;
    }
    demand
}

// The nodes as the passes see them.
fn tag(room: &[u32; 96], demand: &[u32; 96], full: &mut [u32; 96], want: &mut [u32; 96])
    requires { (length full.old ≡ 96) × (length want.old ≡ 96) }
    ensures { Tagged room.now demand.now full.new want.new }
{
    for v in 0..96 {
        full[v] = full_bit(room[v]);
        want[v] = whole(room[v], demand[v]);
    }
}

// The bit of a terminal that plant 2 sends x drums to.
fn lead_bit(x: u32, bit: u32) -> u32
    requires { bit ≤ 1 }
    ensures { result ≤ 1 }
{
    if 0 < x { 0 } else { bit }
}

// Where plant 2 has room, a terminal that it serves comes before others as near: the way leads on from there to plant 2.
fn prefer(room: &[u32; 96], x: &[u32; 2048], full: &mut [u32; 96])
    requires { Bits full.old }
    ensures { Bits full.new }
{
    if room[1] == 0 {
        return;
    }
    for j in 0..64 {
        full[32 + j] = lead_bit(x[64 + j], full[32 + j]);
    }
}

// Cheapest paths from a source to the nearest node that has room. Any of several cheapest paths will do: a plan that is slack after drums went along
// one is as cheap as one after another.
pub fn search(
    lanes: &Lanes<'_>,
    flow: &Flow,
    room: &[u32; 96],
    demand: &[u32; 96],
    start: usize,
) -> Paths
    requires search_ready { SearchReady (net lanes.now.m lanes.now.n lanes.now.cost.now lanes.now.cap.now flow.now.x) flow.now.pot start }
    requires wanted { Wanted (net lanes.now.m lanes.now.n lanes.now.cost.now lanes.now.cap.now flow.now.x) demand.now }
    requires covers { Covers lanes.now.m lanes.now.n flow.now.x flow.now.serves }
    ensures answered { Answered (net lanes.now.m lanes.now.n lanes.now.cost.now lanes.now.cap.now flow.now.x) flow.now.pot room.now start
        result.dist result.prev (node_of result.goal) }
    ensures goal { (g : ℕ) → result.goal ≡ Some g → g < 96 }
{
    let blank = Paths {
        goal: None,
        dist: [FAR; 96],
        prev: [0u32; 96],
    };
    let mut full = [0u32; 96];
    let mut want = [0u32; 96];
    tag(room, demand, &mut full, &mut want);
    prefer(room, &flow.x, &mut full);
    explore(lanes, flow, room, &full, &want, start, blank)
}

// Step 3 of report 4.1, from one split to the next: substeps 1° to 4° as they stand there. Its sources 1 and 2 are the plants, nodes 0 and 1 here.
ghost use Rattle.std.specs.Prelude.{◌≡◌, List, ℕ, length};
ghost use Rattle.residual.specs.inner.Network.{Net, net};
ghost use Rattle.residual.specs.inner.LanesInUse.{Covers};
ghost use Rattle.paths.specs.inner.Search.{Wanted};
ghost use Rattle.cuts.specs.inner.Tables.{Tables};
ghost use Rattle.stretch.specs.inner.Stretch.{ShiftReady, Reached, PathTaken, Sent, KeepReady, KeepDone, HoldDone, held_at};
ghost use Rattle.stretch.specs.inner.Stretch.{StretchReady, ReviseReady, StretchDone};

use super::shift::shift;
use super::undo::undo;
use augment::send::{lower, measure};
use cuts::advance::{Task, advance};
use cuts::columns::CutTables;
use incumbent::Incumbent;
use incumbent::scan::scan;
use paths::search::{Paths, search};
use residual::lanes::{Flow, Lanes};
use spanningtree::NONE;
use spanningtree::tree::Tree;

// A path from plant 1 to plant 2: how many arcs it has, and δ, how many drums can go along it. Of the other fields nothing is promised: whether it was
// searched for; the node on it whose lane can bear no more; whether the last cut left the potentials as they were.
#[derive(Clone, Copy)]
pub struct Path {
    pub count: u32,
    pub delta: u32,
    pub searched: bool,
    pub blocked: Option<u32>,
    pub flat: bool,
}

// Cheapest paths in the residual network, up to one from plant 1 to plant 2, as a search finds them; the tree has none any more.
fn reach(lanes: &Lanes<'_>, limit: u32, demand: &[u32; 96], flow: &Flow, tree: &mut Tree) -> Paths
    requires shift_ready { ShiftReady (net lanes.now.m lanes.now.n lanes.now.cost.now lanes.now.cap.now flow.now.x) flow.now.pot flow.now.x limit }
    requires wanted { Wanted (net lanes.now.m lanes.now.n lanes.now.cost.now lanes.now.cap.now flow.now.x) demand.now }
    requires covers { Covers lanes.now.m lanes.now.n flow.now.x flow.now.serves }
    ensures reached { Reached (net lanes.now.m lanes.now.n lanes.now.cost.now lanes.now.cap.now flow.now.x) flow.now.pot limit result.dist result.prev }
    ensures below { (tree.new.sources_below ≡ tree.old.sources_below) × (tree.new.terminals_below ≡ tree.old.terminals_below) }
{
    tree.parent[1] = NONE;
    let mut room = [0u32; 96];
    room[1] = limit;
    search(lanes, flow, &room, demand, 0)
}

// The path that the search finds, with the nodes before its nodes in prev, and δ. Its distances lower the potentials, so that it has no reduced cost.
fn search_path(
    lanes: &Lanes<'_>,
    limit: u32,
    demand: &[u32; 96],
    flow: &mut Flow,
    tree: &mut Tree,
    prev: &mut [u32; 96],
) -> Path
    requires shift_ready { ShiftReady (net lanes.now.m lanes.now.n lanes.now.cost.now lanes.now.cap.now flow.old.x) flow.old.pot flow.old.x limit }
    requires wanted { Wanted (net lanes.now.m lanes.now.n lanes.now.cost.now lanes.now.cap.now flow.old.x) demand.now }
    requires covers { Covers lanes.now.m lanes.now.n flow.old.x flow.old.serves }
    ensures path_taken { PathTaken (net lanes.now.m lanes.now.n lanes.now.cost.now lanes.now.cap.now flow.old.x) flow.new.pot flow.old.x limit
        prev.new result.count result.delta }
    ensures same { (flow.new.x ≡ flow.old.x) × (flow.new.serves ≡ flow.old.serves) }
    ensures below { (tree.new.sources_below ≡ tree.old.sources_below) × (tree.new.terminals_below ≡ tree.old.terminals_below) }
{
    let found = reach(lanes, limit, demand, flow, tree);
    let dist = found.dist;
    let nodes = found.prev;
    *prev = nodes;
    let way = measure(prev, 0, 1, limit, &flow.x, lanes.cap);
    let gap = dist[1] - flow.pot[1];
    lower(gap, &dist, &mut flow.pot);
    Path {
        count: way.count,
        delta: way.amount,
        searched: true,
        blocked: None,
        flat: false,
    }
}

// A cheapest path from plant 1 to plant 2 in the residual network, and δ: its smallest ceiling, or limit if that is less. The path is that of the tree,
// where cuts bring it over open and tight arcs: distances on it are those of the potentials. Else one is searched for.
fn find_path(
    task: Task,
    lanes: &Lanes<'_>,
    demand: &[u32; 96],
    tables: &CutTables,
    flow: &mut Flow,
    tree: &mut Tree,
    prev: &mut [u32; 96],
) -> Path
    requires shift_ready { ShiftReady (net lanes.now.m lanes.now.n lanes.now.cost.now lanes.now.cap.now flow.old.x) flow.old.pot flow.old.x task.limit }
    requires wanted { Wanted (net lanes.now.m lanes.now.n lanes.now.cost.now lanes.now.cap.now flow.old.x) demand.now }
    requires covers { Covers lanes.now.m lanes.now.n flow.old.x flow.old.serves }
    requires tables { Tables task.wide lanes.now.m lanes.now.n lanes.now.cost.now lanes.now.cap.now flow.old.x tables.now.ahead tables.now.columns }
    requires prev_len { length prev.old ≡ 96 }
    ensures path_taken { PathTaken (net lanes.now.m lanes.now.n lanes.now.cost.now lanes.now.cap.now flow.old.x)
        flow.new.pot flow.old.x task.limit prev.new result.count result.delta }
    ensures covers_2 { Covers lanes.now.m lanes.now.n flow.old.x flow.new.serves }
    ensures same { flow.new.x ≡ flow.old.x }
{
    let Some(course) = advance(task, lanes, tables, flow, tree, prev) else {
        return search_path(lanes, task.limit, demand, flow, tree, prev);
    };
    Path {
        count: course.count,
        delta: course.amount,
        searched: false,
        blocked: None,
        flat: course.flat,
    }
}

// The drums of a stretch from a plan x go along a path, whose nodes prev gets. Lanes in use and the tables of the cuts follow the plan. Nothing
// is asked of the tree nor of the hint. Any cheapest path will do: the plan after it is slack.
pub fn send_drums(
    task: Task,
    lanes: &Lanes<'_>,
    demand: &[u32; 96],
    flow: &mut Flow,
    tree: &mut Tree,
    tables: &mut CutTables,
    prev: &mut [u32; 96],
) -> Path
    requires shift_ready { ShiftReady (net lanes.now.m lanes.now.n lanes.now.cost.now lanes.now.cap.now flow.old.x) flow.old.pot flow.old.x task.limit }
    requires wanted { Wanted (net lanes.now.m lanes.now.n lanes.now.cost.now lanes.now.cap.now flow.old.x) demand.now }
    requires covers { Covers lanes.now.m lanes.now.n flow.old.x flow.old.serves }
    requires tables { Tables task.wide lanes.now.m lanes.now.n lanes.now.cost.now lanes.now.cap.now flow.old.x tables.old.ahead tables.old.columns }
    requires prev_len { length prev.old ≡ 96 }
    ensures sent { Sent (net lanes.now.m lanes.now.n lanes.now.cost.now lanes.now.cap.now flow.old.x)
        flow.old.x task.limit flow.new.pot flow.new.x prev.new result.count result.delta }
    ensures covers_2 { Covers lanes.now.m lanes.now.n flow.new.x flow.new.serves }
    ensures tables_2 { Tables task.wide lanes.now.m lanes.now.n lanes.now.cost.now lanes.now.cap.now flow.new.x
        tables.new.ahead tables.new.columns }
{
    // 1° A cheapest path from plant 1 to plant 2 in the residual network, and δ: the smallest ceiling on it, or what is left to u if that is less. The
    // potentials change until it has no reduced cost.
    let mut path = find_path(task, lanes, demand, tables, flow, tree, prev);
    // 2° The amounts after moving δ along the path.
    let count = path.count;
    let delta = path.delta;
    path.blocked = shift(
        task.wide,
        prev,
        count,
        1,
        delta,
        lanes,
        &mut flow.x,
        &mut flow.serves,
        tables,
    );
    path
}

// Keeps the plan at a split from y on and before next: x, the plan at next, with the drums beyond that split taken back along the path.
fn keep(
    prev: &[u32; 96],
    count: u32,
    split: u64,
    y: u64,
    next: u64,
    x: &[u32; 2048],
    kept: &mut [u32; 2048],
)
    requires { KeepReady prev.now count split y next x.now }
    ensures { KeepDone prev.now count split y next x.now kept.old kept.new }
{
    if split < y {
        return;
    }
    if split == next {
        return;
    }
    *kept = *x;
    undo(prev, count, 1, (next - split) as u32, kept);
}

// Keeps the potentials of the plan that is kept for such a split.
fn hold(split: u64, y: u64, next: u64, pot: &[u32; 96], prices: &mut [u32; 96])
    ensures { HoldDone split y next pot.now prices.old prices.new }
{
    if split < y {
        return;
    }
    if split < next {
        *prices = *pot;
    }
}

// Where the climb stands: a split with f there, and the incumbent.
#[derive(Drop)]
pub struct Position {
    pub split: u64,
    pub freight: u64,
    pub best: Incumbent,
}

// What a stretch found: δ, the next split y + δ with f there, what each drum adds to f and takes off it, and the incumbent.
#[derive(Drop)]
pub struct Moved {
    pub delta: u64,
    pub split: u64,
    pub freight: u64,
    pub gain: u64,
    pub loss: u64,
    pub best: Incumbent,
}

// The rest of a stretch from a position, after its drums went along the path: x is the plan at the next split. The incumbent's plan is x, where its split
// is that of x; when the climb leaves it, it is kept, with its potentials.
pub fn revise(
    path: Path,
    prev: &[u32; 96],
    table: &[u64],
    at: Position,
    flow: &Flow,
    kept: &mut [u32; 2048],
    prices: &mut [u32; 96],
) -> Moved
    requires { ReviseReady flow.now.pot flow.now.x table.now prev.now path.count path.delta at.split at.freight at.best }
    ensures { (N : Net) (x₀ p₀ : List ℕ) (limit : ℕ) →
        StretchReady N p₀ x₀ table.now at.split at.freight limit at.best →
        Sent N x₀ limit flow.now.pot flow.now.x prev.now path.count path.delta →
        StretchDone N table.now at.split at.freight limit at.best (held_at at.best.split at.split x₀ kept.old)
        (held_at at.best.split at.split flow.now.pot prices.old) flow.now.pot flow.now.x
        (held_at result.best.split result.split flow.now.x kept.new)
        (held_at result.best.split result.split flow.now.pot prices.new) result.delta result.split result.freight result.gain result.loss
        result.best }
{
    // 2° The next split y + δ and f there: f + δ · (cost of the path). The cost of the path is what the potentials say: gain less loss.
    let y = at.split;
    let freight = at.freight;
    let count = path.count;
    let drums = path.delta as u64;
    let gain = flow.pot[1] as u64;
    let loss = flow.pot[0] as u64;
    let next = y + drums;
    let value = freight + gain * drums - loss * drums;
    // 3° The incumbent, revised where a total on the way is smaller: every split of the stretch is looked at. Its plan is that of the next split
    // with the drums beyond its own taken back; it is copied only where the climb leaves it.
    let best = at.best;
    let held = scan(table, y, drums, freight, gain, loss, best);
    let split = held.split;
    keep(prev, count, split, y, next, &flow.x, kept);
    // 4° The end, where the split is u, is the test of the loop around this. The residual network for the next stretch is that of x, under the potentials at
    // hand; the plan that is kept needs them too.
    hold(split, y, next, &flow.pot, prices);
    Moved {
        delta: drums,
        split: next,
        freight: value,
        gain,
        loss,
        best: held,
    }
}

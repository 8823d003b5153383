// Cuts until the path of the tree leads over open and tight arcs, or the tree is given up. After a cut that left the potentials as they were another tight
// lane is looked for first: it takes no cut. Nothing is asked of the tree.
ghost use Rattle.std.specs.Prelude.{◌≡◌, ◌<◌, length, IfSome};
ghost use Rattle.residual.specs.inner.Network.{net};
ghost use Rattle.treepath.specs.inner.Follow.{Followed};
ghost use Rattle.cuts.specs.inner.Cut.{WeightsReady, CutReady, Priced, Shifted};
ghost use Rattle.cuts.specs.inner.Advance.{Forgot, Advanced, AdvancedUnder};
ghost use Rattle.cuts.specs.inner.Tables.{Tables};

use super::columns::CutTables;
use super::cut::{Met, cut};
use residual::lanes::{Flow, Lanes};
use spanningtree::NONE;
use spanningtree::entering::{Lane, came_in, tight_lane};
use spanningtree::tree::{Part, Tree};
use treepath::follow::follow;

// The node whose arc is taken to end the tree's path, where one is known; and whether the last cut left the potentials as they were. Nothing is promised
// of either.
#[derive(Clone, Copy)]
pub struct Hint {
    pub node: Option<u32>,
    pub flat: bool,
}

// What a stretch goes by: how many drums it is to send at most, whether no ceiling was found to be below a demand, and a hint. The last two decide how cuts
// are made, and show in no answer.
#[derive(Clone, Copy)]
pub struct Task {
    pub limit: u32,
    pub wide: bool,
    pub hint: Hint,
}

// Source i is no longer noted to serve terminal j, where their lane is empty.
fn forget(i: usize, j: usize, x: &[u32; 2048], serves: &mut [u32; 64])
    requires { (i < 32) × (j < 64) }
    ensures { Forgot x.now serves.old serves.new }
{
    let word = serves[j];
    if (word >> i) % 2 == 1 {
        if x[i * 64 + j] == 0 {
            serves[j] = word - (1 << i);
        }
    }
}

// The lane that comes in by the cut of the part; none where no cut is made.
fn cut_in(
    wide: bool,
    lanes: &Lanes<'_>,
    part: Part,
    table: &[u32; 2048],
    columns: &[u32; 2048],
    x: &[u32; 2048],
    serves: &[u32; 64],
    pot: &mut [u32; 96],
) -> Option<Lane>
    requires cut_ready { CutReady lanes.now.m lanes.now.n table.now columns.now pot.old }
    requires priced { Priced lanes.now.m lanes.now.n lanes.now.cost.now }
    ensures { Shifted lanes.now.m lanes.now.n lanes.now.cost.now table.now columns.now x.now serves.now
        pot.old pot.new }
{
    match cut(wide, lanes, part, table, columns, x, serves, pot)? {
        Met::Out(cell) => {
            let k = (cell % 2048) as u32;
            Some(Lane {
                inner: k / 64,
                outer: 32 + k % 64,
            })
        }
        Met::In(node) => came_in(lanes.m, node, part, table, columns, pot),
    }
}

// The lane that comes in, and whether the last cut left the potentials as they were.
#[derive(Drop)]
struct Joint {
    lane: Lane,
    flat: bool,
}

// The lane by which the part is to hang: a tight one where the last cut changed nothing, else the one that a cut brings in.
fn next_lane(
    wide: bool,
    lanes: &Lanes<'_>,
    flat: bool,
    part: Part,
    table: &[u32; 2048],
    columns: &[u32; 2048],
    x: &[u32; 2048],
    serves: &[u32; 64],
    pot: &mut [u32; 96],
) -> Option<Joint>
    requires cut_ready { CutReady lanes.now.m lanes.now.n table.now columns.now pot.old }
    requires priced { Priced lanes.now.m lanes.now.n lanes.now.cost.now }
    ensures { Shifted lanes.now.m lanes.now.n lanes.now.cost.now table.now columns.now x.now serves.now
        pot.old pot.new }
{
    if flat {
        if let Some(lane) = tight_lane(lanes.m, part, columns, pot) {
            return Some(Joint { lane, flat: true });
        }
    }
    let first = pot[0];
    let second = pot[1];
    let lane = cut_in(wide, lanes, part, table, columns, x, serves, pot)?;
    let still = (first == pot[0]) & (second == pot[1]);
    Some(Joint { lane, flat: still })
}

// The lane above node v, where v is a source and the lane is empty, is no longer noted as one in use.
fn forget_above(v: u32, x: &[u32; 2048], serves: &mut [u32; 64], tree: &Tree)
    ensures { Forgot x.now serves.old serves.new }
{
    if v < 32 {
        let t = ((tree.above(v) % 128 + 32) % 64) as usize;
        forget(v as usize, t, x, serves);
    }
}

// The lane above the node of the hint, where it is one, leaves the tree; the part below it hangs from another. Whether the last cut left the potentials as
// they were; none where a cut was not made as it was wanted.
fn step(
    wide: bool,
    lanes: &Lanes<'_>,
    hint: Hint,
    table: &[u32; 2048],
    columns: &[u32; 2048],
    x: &[u32; 2048],
    serves: &mut [u32; 64],
    pot: &mut [u32; 96],
    tree: &mut Tree,
) -> Option<bool>
    requires cut_ready { CutReady lanes.now.m lanes.now.n table.now columns.now pot.old }
    requires priced { Priced lanes.now.m lanes.now.n lanes.now.cost.now }
    ensures { Advanced lanes.now.m lanes.now.n lanes.now.cost.now table.now columns.now x.now serves.old
        pot.old serves.new pot.new }
{
    let flat = hint.flat;
    let Some(v) = hint.node else {
        return Some(flat);
    };
    forget_above(v, x, serves, tree);
    let part = tree.part(v);
    let joint = next_lane(wide, lanes, flat, part, table, columns, x, serves, pot)?;
    tree.reattach(v, joint.lane.inner, joint.lane.outer);
    Some(joint.flat)
}

// The arcs of the tree's path, how many drums can go along it, and whether the last cut left the potentials as they were.
#[derive(Drop)]
pub struct Course {
    pub count: u32,
    pub amount: u32,
    pub flat: bool,
}

// Cuts until the tree's path leads over open and tight arcs, by the tables given. None will always do: a path is then searched for.
fn cut_until(
    task: Task,
    lanes: &Lanes<'_>,
    table: &[u32; 2048],
    columns: &[u32; 2048],
    flow: &mut Flow,
    tree: &mut Tree,
    prev: &mut [u32; 96],
) -> Option<Course>
    requires cut_ready { CutReady lanes.now.m lanes.now.n table.now columns.now flow.old.pot }
    requires priced { Priced lanes.now.m lanes.now.n lanes.now.cost.now }
    requires lt_m { (1 < lanes.now.m) × (length prev.old ≡ 96) }
    ensures advanced { Advanced lanes.now.m lanes.now.n lanes.now.cost.now table.now columns.now flow.old.x flow.old.serves
        flow.old.pot flow.new.serves flow.new.pot }
    ensures same { flow.new.x ≡ flow.old.x }
    ensures prev_len { length prev.new ≡ 96 }
    ensures followed { IfSome result (λ c.
        Followed (net lanes.now.m lanes.now.n lanes.now.cost.now lanes.now.cap.now flow.old.x) flow.new.pot
        task.limit prev.new c.count c.amount) }
{
    if NONE <= tree.parent[1] {
        return None;
    }
    let mut at = task.hint;
    for _ in 0..200 {
        let flat = step(
            task.wide,
            lanes,
            at,
            table,
            columns,
            &flow.x,
            &mut flow.serves,
            &mut flow.pot,
            tree,
        )?;
        match follow(lanes, flow, &tree.parent, task.limit, prev) {
            Ok(traced) => {
                return Some(Course {
                    count: traced.count,
                    amount: traced.amount,
                    flat,
                });
            }
            Err(stop) => {
                at = Hint {
                    node: Some(stop),
                    flat,
                };
            }
        }
    }
    None
}

// The path of the tree, for as many drums as the task has at most, into prev: cuts are made until it leads over open and tight arcs, or the tree is given
// up. Where ceilings are wide the unit costs are the table by source. Any potentials will do under which what was slack is slack: the
// freight of a slack plan is the least at its split under each.
pub fn advance(
    task: Task,
    lanes: &Lanes<'_>,
    tables: &CutTables,
    flow: &mut Flow,
    tree: &mut Tree,
    prev: &mut [u32; 96],
) -> Option<Course>
    requires tables { Tables task.wide lanes.now.m lanes.now.n lanes.now.cost.now lanes.now.cap.now flow.old.x
        tables.now.ahead tables.now.columns }
    requires weights_ready { WeightsReady flow.old.pot }
    requires priced { Priced lanes.now.m lanes.now.n lanes.now.cost.now }
    requires lt_sources { (1 < lanes.now.m) × (length prev.old ≡ 96) }
    ensures advanced_under { AdvancedUnder lanes.now.m lanes.now.n lanes.now.cost.now lanes.now.cap.now flow.old.x
        flow.old.serves flow.old.pot flow.new.serves flow.new.pot }
    ensures same { flow.new.x ≡ flow.old.x }
    ensures prev_len { length prev.new ≡ 96 }
    ensures followed { IfSome result (λ c.
        Followed (net lanes.now.m lanes.now.n lanes.now.cost.now lanes.now.cap.now flow.old.x) flow.new.pot
        task.limit prev.new c.count c.amount) }
{
    if task.wide {
        return cut_until(task, lanes, lanes.cost, &tables.columns, flow, tree, prev);
    }
    cut_until(
        task,
        lanes,
        &tables.ahead,
        &tables.columns,
        flow,
        tree,
        prev,
    )
}

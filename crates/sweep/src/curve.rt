// The sweep from the first split to the last: the stops of the freight curve, and the split of least total.
ghost use Rattle.std.specs.Prelude.{◌≡◌, ℕ, ◌+◌, ◌≤◌};
ghost use Rattle.transport.specs.Plan.{by_row, row, col};
ghost use Rattle.residual.specs.inner.Cells.{cells};
ghost use Rattle.residual.specs.inner.Network.{net};
ghost use Rattle.residual.specs.inner.LanesInUse.{Covers};
ghost use Rattle.paths.specs.inner.Search.{Wanted};
ghost use Rattle.split_range.specs.inner.Begun.{Begun};
ghost use Rattle.split_range.specs.inner.Range.{demand_in};
ghost use Rattle.stretch.specs.inner.Stretch.{held_at};
ghost use Rattle.sweep.specs.inner.Sweep.{SweepStart, SweepReady, Swept};
ghost use Rattle.sweep.specs.inner.StopsPassed.{NoteReady, Noted, Marked, turned};
ghost use Rattle.sweep.specs.inner.Climb.{both_in, ClimbReady};

use super::freight::{freight_of, lowered};
use canonical::canon::canonize;
use cuts::advance::{Hint, Task};
use cuts::columns::{CutTables, tables};
use incumbent::Incumbent;
use residual::lanes::{Flow, Lanes};
use spanningtree::tree::Tree;
use stretch::stretch::{Position, revise, send_drums};

// Writes a stop and its freight, lowered, behind the count stops that stand in the slices; how many stand there then.
fn note(
    count: usize,
    y: u64,
    freight: u64,
    added: u64,
    splits: &mut [u64],
    freights: &mut [i64],
) -> usize
    requires { NoteReady count freight added splits.old freights.old }
    ensures { Noted count y freight added splits.old freights.old splits.new freights.new result }
{
    splits[count] = y;
    freights[count] = lowered(freight, added);
    count + 1
}

// Writes y where it is a stop.
fn mark(
    stop: bool,
    count: usize,
    y: u64,
    freight: u64,
    added: u64,
    splits: &mut [u64],
    freights: &mut [i64],
) -> usize
    requires { NoteReady count freight added splits.old freights.old }
    ensures { Marked stop count y freight added splits.old freights.old splits.new freights.new result }
{
    if stop {
        return note(count, y, freight, added, splits, freights);
    }
    count
}

// Is y the first split, or one where the drum ahead (gain, loss) does not cost what the drum behind (rise, fall) did?
fn turn(y: u64, lo: u64, gain: u64, loss: u64, rise: u64, fall: u64) -> bool
    requires { (gain + fall ≤ 10000000000) × (loss + rise ≤ 10000000000) }
    ensures { result ≡ turned y lo gain loss rise fall }
{
    y == lo || gain + fall != loss + rise
}

// The split of least total, with its total and its freight, and how many stops there are; and how many stretches took their
// path from a search, not from the tree, of which nothing is promised.
#[derive(Drop)]
pub struct Curve {
    pub split: u64,
    pub total: u64,
    pub freight: u64,
    pub stops: usize,
    pub searched: u64,
}

// Keeps the plan of the last split with its potentials, where it is the incumbent's.
fn keep_last(split: u64, y: u64, flow: &Flow, kept: &mut [u32; 2048], prices: &mut [u32; 96])
    ensures kept_after { kept.new ≡ held_at split y flow.now.x kept.old }
    ensures prices_after { prices.new ≡ held_at split y flow.now.pot prices.old }
{
    if split == y {
        *kept = flow.x;
        *prices = flow.pot;
    }
}

// What the climb goes by: whether ceilings are wide, the first split, the last, f at the first, what was added to each freight.
#[derive(Drop)]
struct Course {
    wide: bool,
    lo: u64,
    hi: u64,
    freight: u64,
    added: u64,
}

// Step 3 of report 4.1: from a cheapest plan at lo, with its potentials and its freight, stretch by stretch up to hi, on the tree as far as it goes.
fn climb(
    course: Course,
    lanes: &Lanes<'_>,
    demand: &[u32; 96],
    table: &[u64],
    splits: &mut [u64],
    freights: &mut [i64],
    flow: &mut Flow,
    kept: &mut [u32; 2048],
    tree: &mut Tree,
) -> Curve
    requires climb_ready { ClimbReady lanes.now.m lanes.now.n lanes.now.cost.now lanes.now.cap.now flow.old.x flow.old.pot course.lo
        course.hi course.freight table.now course.added splits.old freights.old }
    requires wanted { Wanted (net lanes.now.m lanes.now.n lanes.now.cost.now lanes.now.cap.now flow.old.x) demand.now }
    requires covers { Covers lanes.now.m lanes.now.n flow.old.x flow.old.serves }
    ensures { Swept lanes.now.m lanes.now.n (cells lanes.now.cost.now) (cells lanes.now.cap.now)
        (both_in lanes.now.n flow.old.x) (row lanes.now.n (cells flow.old.x))
        (col lanes.now.m (cells flow.old.x)) course.lo course.hi table.now course.added
        splits.old freights.old flow.old.x splits.new freights.new flow.new.x
        kept.new result.split result.total result.freight result.stops }
{
    let wide = course.wide;
    let lo = course.lo;
    let hi = course.hi;
    let freight = course.freight;
    let added = course.added;
    let mut costs = CutTables {
        ahead: [0u32; 2048],
        columns: [0u32; 2048],
    };
    tables(wide, lanes, &flow.x, &mut costs);
    // The end of step 1: the incumbent is the plan at lo. Its plan is kept when the climb leaves it.
    let at = lo as usize;
    let mut best = Incumbent {
        split: lo,
        total: freight + table[at],
        freight,
    };
    let mut prices = flow.pot;
    let mut prev = [0u32; 96];
    let mut y = lo;
    let mut value = freight;
    let mut count: usize = 0;
    let mut rise: u64 = 0;
    let mut fall: u64 = 0;
    let mut searched: u64 = 0;
    let mut hint = Hint {
        node: None,
        flat: false,
    };
    // Step 3, which ends where the split is hi.
    // Stays: nothing is counted; y goes on by the drums of a stretch.
    while y < hi {
        let left = (hi - y) as u32;
        let task = Task {
            limit: left,
            wide,
            hint,
        };
        let path = send_drums(task, lanes, demand, flow, tree, &mut costs, &mut prev);
        let position = Position {
            split: y,
            freight: value,
            best,
        };
        let moved = revise(path, &prev, table, position, flow, kept, &mut prices);
        let stop = turn(y, lo, moved.gain, moved.loss, rise, fall);
        count = mark(stop, count, y, value, added, splits, freights);
        rise = moved.gain;
        fall = moved.loss;
        value = moved.freight;
        y = moved.split;
        best = moved.best;
        searched = searched.wrapping_add(u64::from(path.searched));
        hint = Hint {
            node: path.blocked,
            flat: path.flat,
        };
    }
    count = note(count, y, value, added, splits, freights);
    keep_last(best.split, y, flow, kept, &mut prices);
    canonize(lanes, &prices, kept);
    Curve {
        split: best.split,
        total: best.total,
        freight: best.freight,
        stops: count,
        searched,
    }
}

// The sweep from split lo to split hi of a prepared case, of which flow holds a cheapest plan at lo: the stops and their freights, less what was
// added, go into the slices, the plan for everybody at the best split into kept. Nothing is asked of the tree, nor
// of wide. Any contents will do in flow and tree afterwards: nothing reads them.
pub fn sweep(
    wide: bool,
    lanes: &Lanes<'_>,
    demand: &[u32; 96],
    lo: u64,
    hi: u64,
    table: &[u64],
    added: u64,
    splits: &mut [u64],
    freights: &mut [i64],
    flow: &mut Flow,
    kept: &mut [u32; 2048],
    tree: &mut Tree,
) -> Curve
    requires sweep_start { SweepStart lanes.now.m lanes.now.n lanes.now.cost.now lanes.now.cap.now demand.now lo hi flow.old.x flow.old.serves flow.old.pot }
    requires sweep_ready { SweepReady lanes.now.m lanes.now.n demand.now lo hi table.now added splits.old freights.old }
    ensures { (made : ℕ) (a : ℕ → ℕ) →
        Begun lanes.now.m lanes.now.n lanes.now.cost.now lanes.now.cap.now a (demand_in demand.now) made lo hi
        flow.old.x flow.old.serves flow.old.pot →
        Swept lanes.now.m lanes.now.n (by_row 64 lanes.now.cost.now) (by_row 64 lanes.now.cap.now) made a
        (demand_in demand.now) lo hi table.now added splits.old freights.old flow.old.x
        splits.new freights.new flow.new.x kept.new result.split result.total result.freight result.stops }
{
    let freight = freight_of(lanes, &flow.x);
    let course = Course {
        wide,
        lo,
        hi,
        freight,
        added,
    };
    climb(
        course, lanes, demand, table, splits, freights, flow, kept, tree,
    )
}

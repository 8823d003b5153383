// The drums of a stretch go along its path; the lanes in use and the tables of the cuts follow.
ghost use Rattle.std.specs.Prelude.{false, ℕ};
ghost use Rattle.augment.specs.inner.LaneMarks.{Trail, Marks};
ghost use Rattle.augment.specs.inner.PathWalk.{Walkable, Walked};
ghost use Rattle.cuts.specs.inner.Tables.{Tables};

use augment::send::{carry, push, serve};
use cuts::columns::{CutTables, renew};
use residual::lanes::Lanes;

// v, where it is a source whose lane to terminal w - 32 is empty or a terminal whose lane from w is full; else what was found before.
fn blocked(
    v: usize,
    w: usize,
    cap: &[u32; 2048],
    x: &[u32; 2048],
    before: Option<u32>,
) -> Option<u32> {
    if v < 32 {
        if x[v * 64 + (w % 64 + 32) % 64] == 0 {
            return Some(v as u32);
        }
        return before;
    }
    let k = w % 32 * 64 + (v % 64 + 32) % 64;
    if cap[k] <= x[k] {
        return Some((v % 128) as u32);
    }
    before
}

// Carries amount over the last count arcs of the path to goal, notes the lanes that they bring drums on, and writes each anew in the tables. The last
// node on the way back from goal whose lane cannot bear more: a hint, of which nothing is promised.
fn shift_within(
    prev: &[u32; 96],
    count: u32,
    goal: usize,
    amount: u32,
    lanes: &Lanes<'_>,
    x: &mut [u32; 2048],
    serves: &mut [u32; 64],
    tables: &mut CutTables,
) -> Option<u32>
    requires walkable { Walkable prev.now amount count goal x.old }
    requires trail { Trail 32 prev.now count goal }
    ensures walked { Walked prev.now amount count goal x.old x.new }
    ensures marks { Marks prev.now count goal serves.old serves.new }
    ensures by_index { (m n : ℕ) →
        Tables false m n lanes.now.cost.now lanes.now.cap.now x.old tables.old.ahead tables.old.columns →
        Tables false m n lanes.now.cost.now lanes.now.cap.now x.new tables.new.ahead tables.new.columns }
{
    let mut v = goal;
    let mut last = None;
    for left in (0..count).rev() {
        let w = prev[v] as usize;
        carry(v, w, amount, x);
        serve(v, w, serves);
        renew(v, w, lanes, x, tables);
        last = blocked(v, w, lanes.cap, x, last);
        v = w;
    }
    last
}

// The same; where ceilings are wide no lane fills, and the tables stay as they are. Any hint will do, and any tables that are at most the unit costs of lanes
// with room: a cut is right whatever they are.
pub fn shift(
    wide: bool,
    prev: &[u32; 96],
    count: u32,
    goal: usize,
    amount: u32,
    lanes: &Lanes<'_>,
    x: &mut [u32; 2048],
    serves: &mut [u32; 64],
    tables: &mut CutTables,
) -> Option<u32>
    requires walkable { Walkable prev.now amount count goal x.old }
    requires trail { Trail 32 prev.now count goal }
    ensures walked { Walked prev.now amount count goal x.old x.new }
    ensures marks { Marks prev.now count goal serves.old serves.new }
    ensures by_index { (m n : ℕ) →
        Tables wide m n lanes.now.cost.now lanes.now.cap.now x.old tables.old.ahead tables.old.columns →
        Tables wide m n lanes.now.cost.now lanes.now.cap.now x.new tables.new.ahead tables.new.columns }
{
    if wide {
        return push(prev, count, goal, amount, x, serves);
    }
    shift_within(prev, count, goal, amount, lanes, x, serves, tables)
}

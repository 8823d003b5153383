// The tables of a cut: the unit costs of the lanes with room, by source and by terminal, 32 sources for each: what a cut reads stands together. A full lane
// has more than any that has room.
ghost use Rattle.std.specs.Prelude.{◌≡◌, ◌+◌, ◌<◌, length};
ghost use Rattle.cuts.specs.inner.Columns.{TransposeReady, Filled, Transposed};
ghost use Rattle.cuts.specs.inner.Tables.{Fresh, Roomy, Tables, Written, LaneEnds, Renewed};

use residual::lanes::Lanes;

// The unit costs of the lanes with room: ahead by source, columns by terminal.
#[derive(Drop)]
pub struct CutTables {
    pub ahead: [u32; 2048],
    pub columns: [u32; 2048],
}

// What a full lane has.
const FULL: u32 = 200_000_000;

fn transpose_column(m: usize, j: usize, cost: &[u32; 2048], to: &mut [u32; 2048])
    requires transpose_ready { TransposeReady m (j + 1) cost.now }
    requires filled { Filled m cost.now j 0 to.old }
    ensures { Filled m cost.now (j + 1) 0 to.new }
{
    let k = j * 32;
    for i in 0..m {
        to[k + i] = cost[i * 64 + j];
    }
}

// Into an array that is lent cleared.
fn by_terminal(m: usize, n: usize, cost: &[u32; 2048], to: &mut [u32; 2048])
    requires { TransposeReady m n cost.now × Filled m cost.now 0 0 to.old }
    ensures { Transposed m n cost.now to.new }
{
    for j in 0..n {
        transpose_column(m, j, cost, to);
    }
}

// What stands in the tables for a lane.
fn fresh(cost: u32, cap: u32, x: u32) -> u32
    ensures { Fresh cost cap x result }
{
    if x < cap {
        if cost < FULL {
            return cost;
        }
    }
    FULL
}

// The table by source.
fn with_room(lanes: &Lanes<'_>, x: &[u32; 2048], to: &mut [u32; 2048])
    requires { length to.old ≡ 2048 }
    ensures { Roomy lanes.now.cost.now lanes.now.cap.now x.now 2048 to.new }
{
    let cost = lanes.cost;
    let cap = lanes.cap;
    for k in 0..2048 {
        to[k] = fresh(cost[k], cap[k], x[k]);
    }
}

// Both tables, lent cleared. Where ceilings are wide the table by source is the unit costs themselves. Any
// bound will do for a lane that the case has not: it is read, and does not count.
pub fn tables(wide: bool, lanes: &Lanes<'_>, x: &[u32; 2048], tables: &mut CutTables)
    requires transpose_ready { TransposeReady lanes.now.m lanes.now.n lanes.now.cost.now × Filled lanes.now.m lanes.now.cost.now 0 0 tables.old.columns }
    requires x_len { (length x.now ≡ 2048) × (length tables.old.ahead ≡ 2048) }
    ensures { Tables wide lanes.now.m lanes.now.n lanes.now.cost.now lanes.now.cap.now x.now tables.new.ahead tables.new.columns }
{
    if wide {
        by_terminal(lanes.m, lanes.n, lanes.cost, &mut tables.columns);
        return;
    }
    with_room(lanes, x, &mut tables.ahead);
    by_terminal(lanes.m, lanes.n, &tables.ahead, &mut tables.columns);
}

// The lane from source i to terminal j, in both tables.
fn write(i: usize, j: usize, lanes: &Lanes<'_>, x: &[u32; 2048], tables: &mut CutTables)
    requires { (i < 32) × (j < 64) }
    ensures { Written i j lanes.now.cost.now lanes.now.cap.now x.now tables.old.ahead tables.old.columns
        tables.new.ahead tables.new.columns }
{
    let k = i * 64 + j;
    let cell = fresh(lanes.cost[k], lanes.cap[k], x[k]);
    tables.ahead[k] = cell;
    tables.columns[j * 32 + i] = cell;
}

// The lane of an arc from w to v that drums went over. Any two tables will do that are at most the unit costs of lanes with
// room: potentials that rise by less leave a slack plan slack.
pub fn renew(v: usize, w: usize, lanes: &Lanes<'_>, x: &[u32; 2048], tables: &mut CutTables)
    requires { LaneEnds v w }
    ensures { Renewed v w lanes.now.cost.now lanes.now.cap.now x.now tables.old.ahead tables.old.columns
        tables.new.ahead tables.new.columns }
{
    if v < 32 {
        write(v, w - 32, lanes, x, tables);
    } else {
        write(w, v - 32, lanes, x, tables);
    }
}

// The cut: the potentials of a part of the nodes rise by the least reduced cost of the lanes with room into it and of the lanes in use out of it; or those of
// the other nodes fall by it, where they are fewer. A part has a bit for each source and a bit for each terminal. Tables by source and by terminal have
// the unit costs of lanes with room.
ghost use Rattle.std.specs.Prelude.{◌≡◌, true, ◌^◌, ◌≤◌, ◌<◌, length};
ghost use Rattle.std.specs.Int.Bits.{bit_and};
ghost use Rattle.residual.specs.inner.Cells.{cells};
ghost use Rattle.cuts.specs.inner.Columns.{by_terminal};
ghost use Rattle.cuts.specs.inner.Cut.{Nearer, OutReady, OutTo, ExitReady, ExitTo, Exit, Priced, Others, ChangeReady, Changed, Shut};
ghost use Rattle.cuts.specs.inner.Cut.{FoldReady, Folded, WeightsReady, Weighed, LowsReady, Lows, LeastReady, Counted, LowTo, Low, SourcesReady};
ghost use Rattle.cuts.specs.inner.Cut.{TerminalsReady, Nearest, NearReady, Near, Top, Bottom, CutReady, LiftReady, Lifted, Shifted};

use residual::lanes::Lanes;
use spanningtree::tree::Part;

// The bits below n that are not in the part.
fn others(n: usize, part: u64) -> u64
    requires { n ≤ 64 }
    ensures { Others n part result }
{
    if n < 64 {
        let all = (1 << n) - 1;
        return all & (all ^ part);
    }
    u64::MAX & (u64::MAX ^ part)
}

// Does no source of the part serve a terminal that is not in it?
// Stays: no index is counted; the bits of a word are taken off one by one.
fn closed(n: usize, rows: u32, cols: u64, serves: &[u32; 64]) -> bool
    requires { n ≤ 64 }
    ensures { result ≡ true → Shut n rows cols serves.now }
{
    let mut out: u32 = 0;
    let mut left = others(n, cols);
    while 0 < left {
        let j = u64::trailing_zeros(left) as usize;
        out = out | serves[j];
        left = left & (left - 1);
    }
    if out & rows == 0 {
        return true;
    }
    false
}

// The smaller of two numbers below 2,147,483,648: compared as signed numbers are, which plain machines do four at a time.
fn lower(a: u32, b: u32) -> u32
    requires { (a < 2147483648) × (b < 2147483648) }
    ensures { (result ≤ a) × (result ≤ b) }
{
    if (a ^ 2_147_483_648) < (b ^ 2_147_483_648) {
        a
    } else {
        b
    }
}

// The least of cell and base in each of 32 places, with the cells from k on.
fn fold(k: usize, base: u32, table: &[u32; 2048], acc: &mut [u32; 32])
    requires { FoldReady k base table.now acc.old }
    ensures { Folded k base table.now acc.old 32 acc.new }
{
    for i in 0..32 {
        acc[i] = lower(table[k + i] + base, acc[i]);
    }
}

// The weight of each node: the potential of a source, what the potential of a terminal lacks to 800,000,000.
fn weights(pot: &[u32; 96]) -> [u32; 96]
    requires { WeightsReady pot.now }
    ensures { Weighed pot.now 96 result }
{
    let mut weight = *pot;
    for v in 32..96 {
        weight[v] = 800_000_000 - pot[v];
    }
    weight
}

// The least of unit cost and weight in each of 32 places, over the nodes of a part: bit b of it is node at + b, whose cells stand from
// b * stride + first on.
// Stays: no index is counted; the bits of a word are taken off one by one.
fn lows(
    part: u64,
    at: usize,
    stride: usize,
    first: usize,
    table: &[u32; 2048],
    weight: &[u32; 96],
) -> [u32; 32]
    requires { LowsReady part at stride first table.now weight.now }
    ensures { Lows part at stride first table.now weight.now 0 result }
{
    let mut acc = [1_000_000_000u32; 32];
    let mut left = part;
    while 0 < left {
        let b = u64::trailing_zeros(left) as usize;
        fold(b * stride + first, weight[at + b], table, &mut acc);
        left = left & (left - 1);
    }
    acc
}

// The least reduced cost into the part, and 800,000,000 more; and one end of a lane that has it.
// Stays: a key above all others stands for no lane; an Option is no plainer, since both sides would be opened wherever two are compared.
#[derive(Drop)]
pub struct Entry {
    pub key: u32,
    pub node: usize,
}

fn less(node: usize, key: u32, far: Entry) -> Entry
    ensures { (result.key ≤ key) × (result.key ≤ far.key) }
{
    if key < far.key {
        Entry { key, node }
    } else {
        far
    }
}

// The smaller of two keys, where an amount is not 0; else the second.
fn nearer(amount: u32, node: usize, key: u32, far: Entry) -> Entry
    ensures { Nearer amount key far.key result.key }
{
    if 0 < amount {
        return less(node, key, far);
    }
    far
}

// The least of a key and of what the potential of terminal j is above that of a source of the part and the unit cost together, 1,000,000,000 more, over
// the lanes in use; and the cell of a lane that has it.
// Stays: no index is counted; the bits of a word are taken off one by one.
fn least_out(
    j: usize,
    from: u64,
    cost: &[u32; 2048],
    x: &[u32; 2048],
    pot: &[u32; 96],
    before: Entry,
) -> Entry
    requires { OutReady j from cost.now pot.now }
    ensures { OutTo j from cost.now x.now pot.now before.key 0 result.key }
{
    let level = 1_000_000_000 + pot[32 + j];
    let mut far = before;
    let mut left = from;
    while 0 < left {
        let i = u64::trailing_zeros(left) as usize;
        let k = i * 64 + j;
        let reach = cost[k] + pot[i];
        far = nearer(x[k], k, level - reach, far);
        left = left & (left - 1);
    }
    far
}

// The same over all lanes in use from the sources inside to terminals outside cols.
// Stays: no index is counted; the bits of a word are taken off one by one.
fn leaving(
    lanes: &Lanes<'_>,
    inside: u32,
    cols: u64,
    x: &[u32; 2048],
    serves: &[u32; 64],
    pot: &[u32; 96],
) -> Entry
    requires exit_ready { ExitReady lanes.now.m lanes.now.n lanes.now.cost.now pot.now }
    requires inside_bound { inside < 2 ^ lanes.now.m }
    ensures { ExitTo lanes.now.n inside cols lanes.now.cost.now x.now serves.now pot.now 0 result.key }
{
    let mut far = Entry {
        key: 4_000_000_000,
        node: 0,
    };
    let cost = lanes.cost;
    let mut left = others(lanes.n, cols);
    while 0 < left {
        let j = u64::trailing_zeros(left) as usize;
        let from = serves[j] & inside;
        far = least_out(j, from as u64, cost, x, pot, far);
        left = left & (left - 1);
    }
    far
}

// The least reduced cost of the lanes in use out of the part, and 1,000,000,000 more, and the cell of a lane that has it. Where ceilings are wide a part
// is not to have such lanes: 0 where it has.
fn way_out(
    wide: bool,
    lanes: &Lanes<'_>,
    rows: u32,
    cols: u64,
    x: &[u32; 2048],
    serves: &[u32; 64],
    pot: &[u32; 96],
) -> Entry
    requires { ExitReady lanes.now.m lanes.now.n lanes.now.cost.now pot.now }
    ensures { Exit lanes.now.m lanes.now.n rows cols lanes.now.cost.now x.now serves.now pot.now result.key }
{
    if wide {
        if closed(lanes.n, rows, cols, serves) {
            return Entry {
                key: 4_000_000_000,
                node: 0,
            };
        }
        return Entry { key: 0, node: 0 };
    }
    let inside = rows & others(lanes.m, 0) as u32;
    leaving(lanes, inside, cols, x, serves, pot)
}

// A key, where bit b is in the part; else a number that no key is above.
fn counted(b: usize, part: u32, key: u32) -> u32
    requires { (b < 32) × (key ≤ 1800000000) }
    ensures { Counted part b key result }
{
    if (part >> b) % 2 == 1 {
        return key;
    }
    2_000_000_000
}

// The least of what low has and weight, over the nodes of a part: bit b of it is node at + b. The key of each goes into keys. All 32 places are looked at,
// without a branch, which plain machines do four at a time.
fn lowest(part: u32, at: usize, low: &[u32; 32], weight: &[u32; 96], keys: &mut [u32; 32]) -> u32
    requires { LeastReady part at low.now weight.now }
    ensures { LowTo part at low.now weight.now 32 result }
{
    let mut far: u32 = 2_000_000_000;
    for b in 0..32 {
        let key = counted(b, part, low[b] + weight[at + b]);
        keys[b] = key;
        far = lower(key, far);
    }
    far
}

// The first place of a key; 0 where it has none.
fn place(key: u32, keys: &[u32; 32]) -> usize
    ensures { result < 32 }
{
    for b in 0..32 {
        if keys[b] == key {
            return b;
        }
    }
    0
}

// The least of a key and of what low has and weight, over the nodes of a part: bit b of it is node at + b.
fn least(part: u64, at: usize, low: &[u32; 32], weight: &[u32; 96], from: Entry) -> Entry
    requires { LeastReady part at low.now weight.now }
    ensures { Low part at low.now weight.now from.key result.key }
{
    let mut keys = [0u32; 32];
    let far = lowest(part as u32, at, low, weight, &mut keys);
    if from.key <= far {
        return from;
    }
    let node = at + place(far, &keys);
    Entry { key: far, node }
}

// The least into the part, source by source, to its terminals below 32.
fn by_half(out: u64, cols: u64, cost: &[u32; 2048], weight: &[u32; 96]) -> Entry
    requires { SourcesReady out 32 cost.now weight.now }
    ensures { Nearest out (bit_and cols 4294967295) (cells cost.now) weight.now result.key }
{
    let none = Entry {
        key: 4_000_000_000,
        node: 0,
    };
    let low = lows(out, 0, 64, 0, cost, weight);
    least(cols & 4_294_967_295, 32, &low, weight, none)
}

// The least into the part, source by source: to the terminals below 32, then to the others.
fn by_sources(out: u64, cols: u64, cost: &[u32; 2048], weight: &[u32; 96]) -> Entry
    requires { SourcesReady out 64 cost.now weight.now }
    ensures { Nearest out cols (cells cost.now) weight.now result.key }
{
    let far = by_half(out, cols, cost, weight);
    let more = lows(out, 0, 64, 32, cost, weight);
    least(cols >> 32, 64, &more, weight, far)
}

// The least into the part, terminal by terminal.
fn by_terminals(out: u64, cols: u64, columns: &[u32; 2048], weight: &[u32; 96]) -> Entry
    requires { TerminalsReady out columns.now weight.now }
    ensures { Nearest out cols (by_terminal columns.now) weight.now result.key }
{
    let none = Entry {
        key: 4_000_000_000,
        node: 0,
    };
    let low = lows(cols, 32, 32, 0, columns, weight);
    least(out, 0, &low, weight, none)
}

// The least into the part, from the side with less to look at; from the sources only where what is read of a line of the costs is full.
fn nearest(
    m: usize,
    n: usize,
    rows: u32,
    cols: u64,
    table: &[u32; 2048],
    columns: &[u32; 2048],
    weight: &[u32; 96],
) -> Entry
    requires { NearReady m n table.now columns.now weight.now }
    ensures { Near m n rows cols table.now columns.now weight.now result.key }
{
    let out = others(m, rows as u64);
    let lines = u64::count_ones(out);
    if 32 <= n {
        if cols <= 4_294_967_295 {
            if lines < u64::count_ones(cols) {
                return by_half(out, cols, table, weight);
            }
        }
    }
    if n == 64 {
        if 2 * lines < u64::count_ones(cols) {
            return by_sources(out, cols, table, weight);
        }
    }
    by_terminals(out, cols, columns, weight)
}

// A number that no potential is above: it has each bit that one of them has.
fn top(pot: &[u32; 96]) -> u32
    ensures { Top pot.now 96 result }
{
    let mut most: u32 = 0;
    for v in 0..96 {
        most = most | pot[v];
    }
    most
}

// A number that no potential is below: it has each bit that all of them have.
fn bottom(pot: &[u32; 96]) -> u32
    ensures { Bottom pot.now 96 result }
{
    let mut least: u32 = u32::MAX;
    for v in 0..96 {
        least = least & pot[v];
    }
    least
}

// The nodes of the part rise by up and fall by down; its bit k is node first + k.
// Stays: no index is counted; the bits of a word are taken off one by one.
fn change(part: u64, first: usize, up: u32, down: u32, pot: &mut [u32; 96])
    requires { ChangeReady part first up down pot.old }
    ensures { Changed part first up down pot.old 0 pot.new }
{
    let mut left = part;
    while 0 < left {
        let v = first + u64::trailing_zeros(left) as usize;
        pot[v] = pot[v] + up - down;
        left = left & (left - 1);
    }
}

// A lane that has the least of a cut: one that leads into the part, by one of its ends, or one that leads out of it, by its cell.
#[derive(Drop)]
pub enum Met {
    In(usize),
    Out(usize),
}

// The rise of a part by d, where it is plain that no potential comes above 800,000,000.
fn rise(rows: u32, cols: u64, d: u32, pot: &mut [u32; 96]) -> bool
    requires { length pot.old ≡ 96 }
    ensures { Lifted 32 64 rows cols d pot.old pot.new result }
{
    let most = top(pot);
    if 800_000_000 < most {
        return false;
    }
    if 800_000_000 - most < d {
        return false;
    }
    change(rows as u64, 0, d, 0, pot);
    change(cols, 32, d, 0, pot);
    true
}

// The fall of all nodes but the part by d, where it is plain that no potential comes below 416,000,000.
fn fall(m: usize, n: usize, rows: u32, cols: u64, d: u32, pot: &mut [u32; 96]) -> bool
    requires { LiftReady m n pot.old }
    ensures { Lifted m n rows cols d pot.old pot.new result }
{
    let least = bottom(pot);
    if least < 416_000_000 {
        return false;
    }
    if least - 416_000_000 < d {
        return false;
    }
    let sources = others(m, rows as u64);
    let terminals = others(n, cols);
    change(sources, 0, 0, d, pot);
    change(terminals, 32, 0, d, pot);
    true
}

// The part comes to stand higher by d against the other nodes: it rises, or these fall, where the terminals among them are fewer.
fn lift(m: usize, n: usize, rows: u32, cols: u64, d: u32, pot: &mut [u32; 96]) -> bool
    requires { LiftReady m n pot.old }
    ensures { Lifted m n rows cols d pot.old pot.new result }
{
    if 2 * u64::count_ones(cols) as usize <= n {
        return rise(rows, cols, d, pot);
    }
    if fall(m, n, rows, cols, d, pot) {
        return true;
    }
    rise(rows, cols, d, pot)
}

// The cut of a part, whichever it is, and a lane that it meets; none where no cut is made. The tables have the unit costs of lanes with room, by source
// and by terminal; full lanes may have more. Whether ceilings are wide only decides how lanes in use out of the part are looked for. Any cut will do: what
// was slack under the potentials before is slack under those after it.
pub fn cut(
    wide: bool,
    lanes: &Lanes<'_>,
    part: Part,
    table: &[u32; 2048],
    columns: &[u32; 2048],
    x: &[u32; 2048],
    serves: &[u32; 64],
    pot: &mut [u32; 96],
) -> Option<Met>
    requires cut_ready { CutReady lanes.now.m lanes.now.n table.now columns.now pot.old }
    requires priced { Priced lanes.now.m lanes.now.n lanes.now.cost.now }
    ensures { Shifted lanes.now.m lanes.now.n lanes.now.cost.now table.now columns.now x.now serves.now
        pot.old pot.new }
{
    let m = lanes.m;
    let n = lanes.n;
    let rows = part.sources;
    let cols = part.terminals;
    let exit = way_out(wide, lanes, rows, cols, x, serves, pot);
    if exit.key < 1_000_000_000 {
        return None;
    }
    let weight = weights(pot);
    let far = nearest(m, n, rows, cols, table, columns, &weight);
    if far.key < 800_000_000 {
        return None;
    }
    let ahead = far.key - 800_000_000;
    let back = exit.key - 1_000_000_000;
    if back < ahead {
        let done = lift(m, n, rows, cols, back, pot);
        return done.then_some(Met::Out(exit.node));
    }
    let done = lift(m, n, rows, cols, ahead, pot);
    done.then_some(Met::In(far.node))
}

// The case of a network, part by part, from the arcs as separate slices of numbers (node numbers from 1, as the file has them).
ghost use Rattle.std.specs.Prelude.{◌≡◌, ◌+◌, ◌-◌, ◌≤◌, ◌<◌, length, get_or, cond, ◌||◌, eqb, ltb};
ghost use Rattle.flow_problem.specs.inner.Reduce.{swap, node_of, source_of};
ghost use Rattle.flow_case.specs.inner.Build.{into, want_in, entry_in, Filled, Moderate};
ghost use Rattle.flow_problem.specs.Network.{at};

// a and b change places.
fn swapped(a: usize, b: usize, i: usize) -> usize
    ensures { result ≡ swap a b i }
{
    if i == a {
        return b;
    }
    if i == b {
        return a;
    }
    i
}

// The node that source s is: node w is source 0, node v source 1.
pub fn node_of(w: usize, v: usize, s: usize) -> usize
    ensures { result ≡ node_of w v s }
{
    let place = swapped(0, w, v);
    let t = swapped(1, place, s);
    swapped(0, w, t)
}

// The source that node i is.
pub fn source_of(w: usize, v: usize, i: usize) -> usize
    ensures { result ≡ source_of w v i }
{
    let place = swapped(0, w, v);
    let t = swapped(0, w, i);
    swapped(1, place, t)
}

// The value where the arc's node is this one, 0 else.
fn counted(end: u64, id: u64, value: u64) -> u64
    ensures { result ≡ at end id value }
{
    if end == id { value } else { 0 }
}

// The ceilings of all arcs into a node.
pub fn ceilings_into(ends: &[u64], ceilings: &[u64], id: u64) -> u64
    requires ends_len { length ends.now ≡ length ceilings.now }
    requires moderate { Moderate ceilings.now }
    ensures { result ≡ into ends.now ceilings.now id (length ends.now) }
{
    let mut sum = 0;
    for (j, &end) in ends.iter().enumerate() {
        sum += counted(end, id, ceilings[j]);
    }
    sum
}

// The first value for the named arc, the second for another.
pub fn at_named(j: usize, named: usize, value: u64, other: u64) -> u64
    ensures { result ≡ cond (eqb j named) value other }
{
    if j == named { value } else { other }
}

// The terminals' demands: the arcs' ceilings, and 0 for the named arc.
pub fn fill_demands(ceilings: &[u64], named: usize, demands: &mut [u64])
    requires { length ceilings.now ≤ length demands.old }
    ensures { Filled (want_in ceilings.now named) (length ceilings.now) demands.old demands.new }
{
    for (j, &ceiling) in ceilings.iter().enumerate() {
        demands[j] = at_named(j, named, 0, ceiling);
    }
}

// A lane's ceiling: 4,000 where the arc starts or ends at the node, 0 else.
pub fn lane(start: u64, end: u64, id: u64) -> u64
    ensures { result ≡ cond (eqb start id || eqb end id) 4000 0 }
{
    if start == id || end == id { 4000 } else { 0 }
}

fn moved_entry(table: &[u64], at: usize, less: usize) -> u64
    ensures { result ≡ cond (ltb at less) 0 (get_or table.now (at - less) 0) }
{
    if at < less {
        return 0;
    }
    let k = at - less;
    if k < table.len() { table[k] } else { 0 }
}

// The case's table: entry y is the lent table's at the flow y + ceiling - most, 0 where that is below 0.
pub fn fill_table(table: &[u64], ceiling: usize, most: usize, entries: &mut [u64])
    requires most_in_bounds { most + 1 ≤ length entries.old }
    requires most_bound { (most ≤ 4000) × (ceiling ≤ 4000) }
    ensures { Filled (entry_in table.now ceiling most) (most + 1) entries.old entries.new }
{
    for y in 0..most + 1 {
        entries[y] = moved_entry(table, y + ceiling, most);
    }
}

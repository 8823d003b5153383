// The slices of the case, from the network's.
ghost use Rattle.std.specs.Prelude.{◌≡◌, cond, ℕ, ◌+◌, ◌-◌, ◌*◌, ◌≤◌, ◌<◌, eqb, pos, length, get_or};
ghost use Rattle.transport.specs.Curve.{written};
ghost use Rattle.flow_problem.specs.inner.Reduce.{node_of, source_of};
ghost use Rattle.flow_case.specs.inner.Build.{Moderate, Put, RowsAre, RowsAfter, lane_in, cost_in, have_in, stock_in, flow_in, AtMostAll};

use crate::build::{at_named, ceilings_into, lane, node_of, source_of};

// What each node has.
pub fn fill_haves(ends: &[u64], ceilings: &[u64], gives: &[u64], haves: &mut [u64])
    requires ends_len { (length ends.now ≡ length ceilings.now) × (length gives.now ≤ length haves.old) × (length gives.now ≤ 32) }
    requires moderate { Moderate ceilings.now × AtMostAll 10000000000 gives.now }
    ensures { Put 0 (have_in ends.now ceilings.now gives.now) 0 (length gives.now)
        haves.old haves.new }
{
    for (i, &give) in gives.iter().enumerate() {
        let id = i as u64 + 1;
        let into = ceilings_into(ends, ceilings, id);
        haves[i] = give + into;
    }
}

// The supplies of the case: what each source's node has less what is taken there.
pub fn fill_supplies(haves: &[u64], takes: &[u64], w: usize, v: usize, supplies: &mut [u64])
    requires haves_len { (length haves.now ≡ length takes.now) × (length haves.now ≤ length supplies.old) }
    requires by_index { (s : ℕ) → s < length haves.now →
        (node_of w v s < length haves.now) × (get_or takes.now (node_of w v s) 0 ≤ get_or haves.now (node_of w v s) 0) }
    ensures { Put 0 (stock_in haves.now takes.now w v) 0 (length haves.now) supplies.old
        supplies.new }
{
    for s in 0..haves.len() {
        let i = node_of(w, v, s);
        supplies[s] = haves[i] - takes[i];
    }
}

// The lane ceilings of a node's row, from index `at` on.
fn lanes_into(starts: &[u64], ends: &[u64], id: u64, at: usize, to: &mut [u64; 2048])
    requires { (length starts.now ≡ length ends.now) × (at + length starts.now ≤ 2048) × (length to.old ≡ 2048) }
    ensures { Put 0 (lane_in starts.now ends.now id) at (length starts.now) to.old to.new }
{
    for (j, &start) in starts.iter().enumerate() {
        to[at + j] = lane(start, ends[j], id);
    }
}

// The lane ceilings, row after row; later cells are left as they are.
pub fn lane_rows(m: usize, w: usize, v: usize, starts: &[u64], ends: &[u64], to: &mut [u64; 2048])
    requires m_bound { (m ≤ 32) × (length starts.now ≤ 64) × (length starts.now ≡ length ends.now) × (length to.old ≡ 2048) }
    requires by_index { (s : ℕ) → s < m → node_of w v s < m }
    ensures { RowsAre 0 (λ s j. lane_in starts.now ends.now (node_of w v s + 1) j) m (length starts.now) to.new ×
        (length to.new ≡ 2048) ×
        RowsAfter 0 m (length starts.now) to.old to.new }
{
    for s in 0..m {
        let i = node_of(w, v, s);
        lanes_into(starts, ends, i as u64 + 1, s * starts.len(), to);
    }
}

fn rate(start: u64, id: u64, cost: i64) -> i64
    ensures { result ≡ cond (eqb start id) cost (pos 0) }
{
    if start == id { cost } else { 0 }
}

// The unit costs of a node's row, from index `at` on.
fn costs_into(starts: &[u64], costs: &[i64], id: u64, at: usize, to: &mut [i64; 2048])
    requires { (length starts.now ≡ length costs.now) × (at + length starts.now ≤ 2048) × (length to.old ≡ 2048) }
    ensures { Put (pos 0) (cost_in starts.now costs.now id) at (length starts.now) to.old to.new }
{
    for (j, &start) in starts.iter().enumerate() {
        to[at + j] = rate(start, id, costs[j]);
    }
}

// The unit costs, row after row; later cells are left as they are.
// Stays: beside `lane_rows`, since a function of both would take the cell's closure and its law along, longer than this loop.
pub fn cost_rows(m: usize, w: usize, v: usize, starts: &[u64], costs: &[i64], to: &mut [i64; 2048])
    requires m_bound { (m ≤ 32) × (length starts.now ≤ 64) × (length starts.now ≡ length costs.now) × (length to.old ≡ 2048) }
    requires by_index { (s : ℕ) → s < m → node_of w v s < m }
    ensures { RowsAre (pos 0) (λ s j. cost_in starts.now costs.now (node_of w v s + 1) j) m (length starts.now) to.new ×
        (length to.new ≡ 2048) ×
        RowsAfter (pos 0) m (length starts.now) to.old to.new }
{
    for s in 0..m {
        let i = node_of(w, v, s);
        costs_into(starts, costs, i as u64 + 1, s * starts.len(), to);
    }
}

// The flow that the plan stands for.
pub fn fill_flow(
    plan: &[u64],
    starts: &[u64],
    w: usize,
    v: usize,
    named: usize,
    carried: u64,
    flow: &mut [u64],
)
    requires starts_len_bound { (length starts.now ≤ 64) × (length starts.now ≤ length flow.old) × (length plan.now ≡ 2048) }
    requires by_index { (j : ℕ) → j < length starts.now → (1 ≤ get_or starts.now j 0) × (source_of w v (get_or starts.now j 0 - 1) < 32) }
    ensures { Put 0 (flow_in plan.now starts.now w v named carried) 0 (length starts.now)
        flow.old flow.new }
{
    for (j, &start) in starts.iter().enumerate() {
        let s = source_of(w, v, (start - 1) as usize);
        let at = s * starts.len() + j;
        flow[j] = at_named(j, named, carried, plan[at]);
    }
}

// The numbers copied to the front of a lent slice.
pub fn copy_front<T: Copy>(from: &[T], to: &mut [T])
    requires { length from.now ≤ length to.old }
    ensures { to.new ≡ written from.now to.old }
{
    to[..from.len()].copy_from_slice(from);
}

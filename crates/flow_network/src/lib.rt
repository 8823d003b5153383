// The least-cost flow of a network in DIMACS form, by way of the planner.
#![tactic(auto)]

ghost use Rattle.std.specs.Prelude.{◌≡◌, ◌||◌, ltb};
ghost use Rattle.flow_problem.specs.Promise.{Answered};
ghost use Rattle.dimacs.specs.Form.{form_of};
ghost use Rattle.flow_network.specs.Answer.{outcome, count_in, count_of, arcs_said, slices_of};

use crate::judge::judge;
use dimacs::store::read_file;
use refusal::{Cause, Refusal};

mod carry;
mod judge;

// The total of the flow found, and the count of the file's arcs.
#[derive(Clone, Copy, Debug, PartialEq, Eq)]
pub struct Carried {
    pub total: i64,
    pub arcs: u64,
}

// Is a count above the limits, or a line out of them?
fn out_of_limits(nodes: u64, arcs: u64, odd: bool, bad: bool) -> bool
    ensures { result ≡ (ltb 32 nodes || (ltb 64 arcs || (odd || bad))) }
{
    32 < nodes || 64 < arcs || odd || bad
}

// The least-cost flow of the network in a DIMACS file, where the table replaces the cost of the arc named by its place from 1; or a refusal. The flow and
// the arcs are written to the front of the lent slices.
// Stays: a slice for each field, as callers in C lend them.
pub fn cheapest_flow(
    bytes: &[u8],
    place: usize,
    table: &[u64],
    flow: &mut [u64],
    starts: &mut [u64],
    ends: &mut [u64],
    ceilings: &mut [u64],
    costs: &mut [i64],
) -> Result<Carried, Refusal>
    ensures { Answered bytes.now place table.now (outcome result)
        (slices_of flow.old starts.old ends.old ceilings.old costs.old)
        (slices_of flow.new starts.new ends.new ceilings.new costs.new) ×
        (count_in result ≡ count_of (outcome result) (arcs_said (form_of bytes.now))) }
{
    let mut tails = [0; 64];
    let mut heads = [0; 64];
    let mut capacities = [0; 64];
    let mut prices = [0; 64];
    let mut gives = [0; 32];
    let mut takes = [0; 32];
    let mut marks = [0; 32];
    let file = read_file(
        bytes,
        &mut tails,
        &mut heads,
        &mut capacities,
        &mut prices,
        &mut gives,
        &mut takes,
        &mut marks,
    )?;
    if out_of_limits(file.nodes, file.arcs, file.odd, file.bad) {
        return Err(Cause::Limits.at(0));
    }
    let m = file.nodes as usize;
    let n = file.arcs as usize;
    judge(
        &gives[0..m],
        &takes[0..m],
        &tails[0..n],
        &heads[0..n],
        &capacities[0..n],
        &prices[0..n],
        place,
        table,
        flow,
        starts,
        ends,
        ceilings,
        costs,
    )
}

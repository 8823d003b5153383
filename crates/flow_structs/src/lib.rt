// The least-cost flow of a network in DIMACS form, with the arcs in a lent slice of structs.
#![tactic(auto)]

ghost use Rattle.std.specs.Prelude.{◌≡◌, ◌≤◌, length};
ghost use Rattle.transport.specs.Curve.{written};
ghost use Rattle.flow_network.specs.Answer.{outcome};
ghost use Rattle.flow_problem.specs.Network.{cells};
ghost use Rattle.flow_arcs.specs.Lent.{arc_at, ArcsAnswered};

use crate::find::find;
use flow_arcs::Arc;
use flow_arcs::find::Found;
use flow_network::Carried;
use refusal::Refusal;

mod find;

// Writes the first n arcs that were found to the front of the slice.
fn write(arcs: &mut [Arc], found: &Found, n: usize)
    requires { (n ≤ 64) × (n ≤ length arcs.old) }
    ensures { arcs.new ≡ written (cells n (arc_at found.now)) arcs.old }
{
    for i in 0..n {
        arcs[i] = found.arc(i);
    }
}

// The least-cost flow of the network in a DIMACS file, where the table replaces the cost of the arc named by its place from 1; or a refusal. The flow and
// the arcs are written to the front of the two lent slices.
pub fn cheapest_flow(
    bytes: &[u8],
    place: usize,
    table: &[u64],
    flow: &mut [u64],
    arcs: &mut [Arc],
) -> Result<Carried, Refusal>
    ensures { ArcsAnswered bytes.now place table.now (outcome result) flow.old flow.new
        arcs.old arcs.new }
{
    let found = find(bytes, place, table, flow, arcs.len());
    write(arcs, &found, found.count);
    found.answer
}

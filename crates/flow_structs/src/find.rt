// The least-cost flow with the arcs' numbers in arrays, one for each field of an arc.
ghost use Rattle.flow_arcs.specs.Lent.{FoundIs};

use flow_arcs::find::{Found, count_of};
use flow_network::cheapest_flow;

// The flow, written to the front of its slice, and what is to be written of the arcs where so many cells are lent for them.
pub fn find(bytes: &[u8], place: usize, table: &[u64], flow: &mut [u64], room: usize) -> Found
    ensures { FoundIs bytes.now place table.now room flow.old flow.new result }
{
    let mut starts = [0; 64];
    let mut ends = [0; 64];
    let mut ceilings = [0; 64];
    let mut costs = [0; 64];
    let r = room.min(64);
    let answer = cheapest_flow(
        bytes,
        place,
        table,
        flow,
        &mut starts[0..r],
        &mut ends[0..r],
        &mut ceilings[0..r],
        &mut costs[0..r],
    );
    let count = count_of(answer);
    Found {
        answer,
        count,
        starts,
        ends,
        ceilings,
        costs,
    }
}

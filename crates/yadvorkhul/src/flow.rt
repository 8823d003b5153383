// The least-cost flow of a network in DIMACS form, for callers outside Rattle: numbers and slices only.
ghost use Rattle.flow_network.specs.Answer.{slices_of};
ghost use Rattle.export_reports.specs.Flow.{FlowExported};

use export_reports::flow::tell_flow;

// Finds the least-cost flow of the network in a DIMACS file, where the table replaces the cost of the arc named by its place from 1: 0 where
// there is one, else the number of the refusal. The flow and the arcs go to the front of their slices. The report's first cell gets the count of
// arcs, or the refusal's place, that of the worth the total. Where either has no cell the answer is 34.
#[unsafe(no_mangle)]
pub extern "C" fn yadvorkhul_flow(
    bytes: &[u8],
    place: usize,
    table: &[u64],
    flow: &mut [u64],
    starts: &mut [u64],
    ends: &mut [u64],
    ceilings: &mut [u64],
    costs: &mut [i64],
    report: &mut [u64],
    worth: &mut [i64],
) -> u64
    ensures { FlowExported bytes.now place table.now
        (slices_of flow.old starts.old ends.old ceilings.old costs.old)
        (slices_of flow.new starts.new ends.new ceilings.new costs.new) report.old
        report.new worth.old worth.new result }
{
    if report.len() < 1 {
        return 34;
    }
    if worth.len() < 1 {
        return 34;
    }
    let answer = flow_network::cheapest_flow(
        bytes, place, table, flow, starts, ends, ceilings, costs,
    );
    tell_flow(answer, report, worth)
}

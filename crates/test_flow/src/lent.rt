// The arcs in a lent slice of structs, and how they are held to a network.
ghost use Rattle.std.specs.Prelude.{◌≡◌};
ghost use Rattle.flow_network.specs.Answer.{outcome};
ghost use Rattle.flow_arcs.specs.Lent.{ArcsAnswered};
ghost use Rattle.test_flow.specs.inner.SevenArcs.{seven_arc, seven_arcs};

use crate::brute::Network;
use flow_arcs::Arc;
use flow_network::Carried;
use flow_structs::cheapest_flow;
use refusal::Refusal;
use test_draws::slices::at;

// The answer, and the arcs as they came back.
#[derive(Clone, Copy, PartialEq, Eq, Debug)]
pub struct Lent {
    pub answer: Result<Carried, Refusal>,
    pub arcs: [Arc; 6],
}

fn seven() -> Arc
    ensures { result ≡ seven_arc }
{
    Arc {
        start: 7,
        end: 7,
        ceiling: 7,
        cost: 7,
    }
}

fn sevens() -> [Arc; 6]
    ensures { result ≡ seven_arcs }
{
    [seven(); 6]
}

// Asks for the flow of a file, and lends six arcs of sevens.
pub fn lend(bytes: &[u8], place: usize, table: &[u64], flow: &mut [u64]) -> Lent
    ensures { ArcsAnswered bytes.now place table.now (outcome result.answer) flow.old
        flow.new seven_arcs result.arcs }
{
    let mut arcs = sevens();
    let answer = cheapest_flow(bytes, place, table, flow, &mut arcs);
    Lent { answer, arcs }
}

// The arc k of a network, whose costs are raised by 4; one of sevens past the last.
fn arc_of(net: &Network, k: usize) -> Arc {
    if net.starts.len() <= k {
        return seven();
    }
    Arc {
        start: at(net.starts, k),
        end: at(net.ends, k),
        ceiling: at(net.ceilings, k),
        cost: (at(net.costs, k) % 1_000) as i64 - 4,
    }
}

// Are these the first n arcs of a network, and the later ones as they were?
pub fn same_arcs(arcs: &[Arc; 6], net: &Network, n: usize) -> bool {
    arcs.iter().enumerate().all(|(k, arc)| {
        let want = if k < n { arc_of(net, k) } else { seven() };
        *arc == want
    })
}

// One network: what `cheapest_flow` answers of its file, held to all flows.
use crate::brute::{Best, Least, Network, kept, level_of, try_amounts};
use crate::file::write_network;
use crate::lent::{lend, same_arcs};
use flow_arcs::find::count_of;
use flow_network::{Carried, cheapest_flow};
use refusal::{Cause, Refusal};
use test_draws::number::raised;
use test_draws::slices::{at, first, from};

// What is answered; whether it is what is wanted; and how many flows there are.
#[derive(Clone, Copy, PartialEq, Eq, Debug)]
pub struct Seen {
    pub said: Result<Carried, Refusal>,
    pub agrees: bool,
    pub flows: u64,
}

// Do the cells from n on hold 7?
fn later(s: &[u64], n: usize) -> bool {
    from(s, n).iter().all(|x| *x == 7)
}

// Do the first cells hold these numbers, and the later ones 7?
fn holds(numbers: &[u64], cells: &[u64]) -> bool {
    first(cells, numbers.len()) == numbers && later(cells, numbers.len())
}

// Is it a flow?
fn carries(net: &Network, amounts: &[u64]) -> bool {
    kept(net, amounts)
        && later(amounts, net.starts.len())
        && net
            .ceilings
            .iter()
            .zip(amounts)
            .all(|(ceiling, amount)| amount <= ceiling)
}

// Are the total told, the amounts' own total and the amount on the named arc the best?
fn cheapest(net: &Network, amounts: &[u64], told: u64, best: Best) -> bool {
    let found = Least {
        level: told,
        carried: at(amounts, net.named),
    };
    best.least == Some(found) && level_of(net, amounts) == told
}

// Asks once more, with the arcs in a lent slice of structs. Are answer and flow the same, and the arcs those of the network?
fn by_structs(
    bytes: &[u8],
    net: &Network,
    place: usize,
    said: Result<Carried, Refusal>,
    flow: &[u64; 6],
) -> bool {
    let mut again = [7u64; 6];
    let lent = lend(bytes, place, net.table, &mut again);
    lent.answer == said && again == *flow && same_arcs(&lent.arcs, net, count_of(said))
}

// Asks for the flow of a file, and holds the answer to all flows. Each lent cell holds 7 before.
fn ask(bytes: &[u8], net: &Network, place: usize, best: Best) -> Seen {
    let mut flow = [7u64; 6];
    let mut tails = [7u64; 6];
    let mut heads = [7u64; 6];
    let mut caps = [7u64; 6];
    let mut rates = [7i64; 6];
    let said = cheapest_flow(
        bytes, place, net.table, &mut flow, &mut tails, &mut heads, &mut caps, &mut rates,
    );
    let as_wanted = match said {
        Ok(carried) => {
            carried.arcs == net.starts.len() as u64
                && holds(net.starts, &tails)
                && holds(net.ends, &heads)
                && holds(net.ceilings, &caps)
                && carries(net, &flow)
                && cheapest(net, &flow, raised(carried.total, 1_000), best)
        }
        Err(refusal) => {
            refusal.cause == Cause::NoPlan && best.flows == 0 && later(&flow, 0) && later(&tails, 0)
        }
    };
    Seen {
        said,
        agrees: as_wanted && by_structs(bytes, net, place, said, &flow),
        flows: best.flows,
    }
}

// Writes the file of a network, and holds it.
pub fn hold(net: &Network) -> Seen {
    let mut file = [0u8; 4096];
    let size = write_network(&mut file, net);
    ask(
        first(&file, size),
        net,
        net.named % 64 + 1,
        try_amounts(net),
    )
}

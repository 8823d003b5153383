// All flows of a small network.
use test_draws::rows::next_row;
use test_draws::slices::at;

// A network, its parts as long as it has arcs and nodes: unit costs are raised by 4 and supplies by 20, so that none is below 0. The named arc is
// charged by the table.
// Stays: parallel slices, as `cheapest_flow` lends them to callers from C.
#[derive(Clone, Copy, PartialEq, Eq, Debug, Drop)]
pub struct Network<'a> {
    pub starts: &'a [u64],
    pub ends: &'a [u64],
    pub ceilings: &'a [u64],
    pub costs: &'a [u64],
    pub supplies: &'a [u64],
    pub named: usize,
    pub table: &'a [u64],
}

// The least total, raised by 1,000, and the least amount on the named arc at that total.
#[derive(Clone, Copy, PartialEq, Eq, PartialOrd, Ord, Debug, Drop)]
pub struct Least {
    pub level: u64,
    pub carried: u64,
}

// How many flows there are, and the best of them.
#[derive(Clone, Copy, PartialEq, Eq, Debug, Drop)]
pub struct Best {
    pub flows: u64,
    pub least: Option<Least>,
}

// The amounts on the arcs at a node, by their starts or by their ends.
pub fn at_node(nodes: &[u64], id: u64, amounts: &[u64]) -> u64 {
    let mut sum: u64 = 0;
    for (node, amount) in nodes.iter().zip(amounts) {
        if *node == id {
            sum = sum.saturating_add(*amount);
        }
    }
    sum
}

// Is at each node what leaves minus what enters the supply, which is raised by 20?
pub fn kept(net: &Network, amounts: &[u64]) -> bool {
    net.supplies.iter().enumerate().all(|(i, supply)| {
        let id = (i as u64).saturating_add(1);
        let out = at_node(net.starts, id, amounts).saturating_add(20);
        out == at_node(net.ends, id, amounts).saturating_add(*supply)
    })
}

// The total, raised by 1,000: what the named arc is charged, and for each drum on another its cost less 4.
pub fn level_of(net: &Network, amounts: &[u64]) -> u64 {
    let mut paid = at(net.table, at(amounts, net.named) as usize).saturating_add(1_000);
    let mut raised: u64 = 0;
    for (k, cost) in net.costs.iter().enumerate() {
        if k != net.named {
            paid = paid.saturating_add(cost.saturating_mul(at(amounts, k)));
            raised = raised.saturating_add(at(amounts, k).saturating_mul(4));
        }
    }
    paid.saturating_sub(raised)
}

// Tries all amounts, 243 at most.
pub fn try_amounts(net: &Network) -> Best {
    let mut amounts = [0u64; 5];
    let mut flows: u64 = 0;
    let mut least = None;
    for _ in 0..243 {
        if kept(net, &amounts) {
            flows = flows.saturating_add(1);
            let found = Least {
                level: level_of(net, &amounts),
                carried: at(&amounts, net.named),
            };
            least = match least {
                Some(best) => Some(found.min(best)),
                None => Some(found),
            };
        }
        if !next_row(&mut amounts, |k| at(net.ceilings, k)) {
            break;
        }
    }
    Best { flows, least }
}

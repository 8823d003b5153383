// Random small networks, the same at each run: parallel arcs, ceilings of 0, costs below 0, supplies at the named arc's ends and elsewhere, ties, and
// networks without a flow. The answer of `cheapest_flow` is held to all flows; that with a lent slice of arc structs to it and to the arcs drawn.
#![tactic(auto)]

mod brute;
mod draw;
mod file;
mod lent;
mod trial;

use crate::brute::Network;
use crate::draw::{disturb, draw_amounts, draw_ends, fill_supplies};
use crate::trial::{Seen, hold};
use refusal::Cause;
use std::io;
use test_draws::slices::{at, first};
use test_draws::tally::say;
use test_draws::{after, below, draw};

const NETWORKS: u64 = 4_000;

// What was found over all networks.
#[derive(Clone, Copy, PartialEq, Eq, Debug, Drop)]
struct Tally {
    networks: u64,
    carried: u64,
    none: u64,
    flows: u64,
    differences: u64,
}

impl Tally {
    fn new() -> Tally {
        Tally {
            networks: 0,
            carried: 0,
            none: 0,
            flows: 0,
            differences: 0,
        }
    }

    // The tally and one network more.
    fn with(self, s: Seen) -> Tally {
        let cause = s.said.err().map(|refusal| refusal.cause);
        Tally {
            networks: self.networks.saturating_add(1),
            carried: self.carried.saturating_add(u64::from(cause.is_none())),
            none: self
                .none
                .saturating_add(u64::from(cause == Some(Cause::NoPlan))),
            flows: self.flows.saturating_add(s.flows),
            differences: self.differences.saturating_add(u64::from(!s.agrees)),
        }
    }
}

// Draws a network from the generator's number, and holds its first arcs and nodes with the named arc's table.
fn run_network(seed: u64) -> Seen {
    let nodes = below(seed, 3).saturating_add(2);
    let a = after(seed);
    let arcs = below(a, 5).saturating_add(1);
    let n = arcs as usize;
    let mut starts = [0u64; 5];
    let mut ends = [0u64; 5];
    let mut ceilings = [0u64; 5];
    let mut amounts = [0u64; 5];
    let mut supplies = [0u64; 4];
    let mut costs = [0u64; 5];
    let mut table = [0u64; 3];
    let b = draw(a, 1, nodes, &mut starts);
    let c = draw_ends(b, nodes, &starts, &mut ends);
    let d = draw(c, 0, 3, &mut ceilings);
    let e = draw_amounts(d, &ceilings, &mut amounts);
    fill_supplies(first(&starts, n), first(&ends, n), &amounts, &mut supplies);
    disturb(e, &mut supplies);
    let f = draw(after(e), 0, 10, &mut costs);
    let g = draw(f, 0, 7, &mut table);
    let named = below(g, arcs) as usize;
    let entries = at(&ceilings, named).saturating_add(1) as usize;
    hold(&Network {
        starts: first(&starts, n),
        ends: first(&ends, n),
        ceilings: first(&ceilings, n),
        costs: first(&costs, n),
        supplies: first(&supplies, nodes as usize),
        named,
        table: first(&table, entries),
    })
}

fn run_networks() -> Tally {
    let mut t = Tally::new();
    let mut x: u64 = 20_260_211;
    for _ in 0..NETWORKS {
        x = after(x);
        t = t.with(run_network(x));
    }
    t
}

fn main(rt: HostRuntime) -> io::Result<()> {
    let t = run_networks();
    say(&rt, "networks:              ", t.networks)?;
    say(&rt, "with a flow:           ", t.carried)?;
    say(&rt, "refused by 27:         ", t.none)?;
    say(&rt, "flows tried:           ", t.flows)?;
    say(&rt, "differences:           ", t.differences)
}

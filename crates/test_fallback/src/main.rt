// Random cases, the same at each run, planned as usual and three times more: without the simplex, with a drum more on a lane of its plan, which the
// check must refuse, and with a node of its tree attached elsewhere, so that the climb falls back on the search. Every answer must be the same.
#![tactic(auto)]

ghost use Rattle.std.specs.Prelude.{◌≤◌};

mod draw;
mod trial;

use crate::draw::{costs_of, deal, draw_costs, sum};
use crate::trial::{Seen, hold};
use lent_case::Case;
use std::io;
use test_draws::slices::first;
use test_draws::tally::say;
use test_draws::{after, below, draw};

const CASES: u64 = 2_000;

// What was found over all cases.
#[derive(Clone, Copy, PartialEq, Eq, Debug, Drop)]
struct Tally {
    cases: u64,
    planned: u64,
    passed: u64,
    refused: u64,
    climbed: u64,
    differences: u64,
    searched: u64,
    recovered: u64,
}

impl Tally {
    fn new() -> Tally {
        Tally {
            cases: 0,
            planned: 0,
            passed: 0,
            refused: 0,
            climbed: 0,
            differences: 0,
            searched: 0,
            recovered: 0,
        }
    }

    // The tally and one case more.
    fn with(self, s: Seen) -> Tally {
        Tally {
            cases: self.cases.saturating_add(1),
            planned: self.planned.saturating_add(u64::from(s.planned)),
            passed: self.passed.saturating_add(u64::from(s.passed)),
            refused: self.refused.saturating_add(u64::from(s.refused)),
            climbed: self.climbed.saturating_add(u64::from(s.climbed)),
            differences: self.differences.saturating_add(u64::from(!s.agrees)),
            searched: self.searched.saturating_add(s.searched),
            recovered: self.recovered.saturating_add(s.recovered),
        }
    }
}

// How many sources and terminals a case has.
fn size_of(k: u64) -> (usize, usize)
    ensures { (result.0 ≤ 32) × (result.1 ≤ 64) }
{
    match k {
        0 => (2, 1),
        1 => (2, 5),
        2 => (3, 4),
        3 => (4, 7),
        4 => (6, 6),
        5 => (8, 16),
        6 => (17, 33),
        _ => (32, 64),
    }
}

// What both plants make of what they can: half, three quarters or all.
fn made_of(k: u64, most: u64) -> u64 {
    match k {
        0 => most / 2,
        1 => most - most / 4,
        _ => most,
    }
}

// A lane of the case, as the engine counts lanes.
fn lane_of(x: u64, c: &Case) -> usize {
    (below(x, c.m as u64) % 32 * 64 + below(after(x), c.n as u64) % 64) as usize
}

// A node of the case: a source, or a terminal.
fn node_of(x: u64, c: &Case) -> usize {
    if below(x, 2) == 0 {
        return (below(after(x), c.m as u64) % 32) as usize;
    }
    (32 + below(after(x), c.n as u64) % 64) as usize
}

// Draws supplies, of which the plants have 100 more, and demands that use what the depots have and some of what the plants can make.
fn draw_amounts(
    seed: u64,
    m: usize,
    n: usize,
    supplies: &mut [u64; 32],
    demands: &mut [u64; 64],
) -> u64 {
    let b = draw(seed, 0, 200, supplies);
    supplies[0] = supplies[0].saturating_add(100);
    supplies[1] = supplies[1].saturating_add(100);
    let plants = supplies[0].saturating_add(supplies[1]);
    let stock = sum(first(supplies, m)).saturating_sub(plants);
    let drums = stock.saturating_add(made_of(below(b, 3), plants));
    deal(b, n as u64, drums, demands)
}

// Draws a case from the generator's number, its ceilings 4,000 or one in four times narrow ones, and holds it.
fn run_case(seed: u64) -> Seen {
    let e = after(seed);
    let (m, n) = size_of(below(e, 8));
    let mut costs = [0i64; 2048];
    let mut supplies = [0u64; 32];
    let mut demands = [0u64; 64];
    let mut ceilings = [4_000u64; 2048];
    let mut table = [0u64; 4001];
    let a = draw_costs(e, costs_of(below(after(e), 5)), &mut costs);
    let c = draw_amounts(a, m, n, &mut supplies, &mut demands);
    let d = draw(c, 0, 1_000, &mut table);
    if below(d, 4) == 0 {
        draw(d, 60, 300, &mut ceilings);
    }
    let run = below(after(d), 60);
    let entries = (supplies[0] % 4_000 + 1) as usize;
    let case = Case {
        m,
        n,
        run1: run,
        run2: run,
        costs: first(&costs, m * n),
        supplies: first(&supplies, m),
        demands: first(&demands, n),
        ceilings: first(&ceilings, m * n),
        table: first(&table, entries),
    };
    hold(lane_of(d, &case), node_of(after(d), &case), &case)
}

fn run_cases() -> Tally {
    let mut t = Tally::new();
    let mut x: u64 = 20_260_306;
    for _ in 0..CASES {
        x = after(x);
        t = t.with(run_case(x));
    }
    t
}

fn main(rt: HostRuntime) -> io::Result<()> {
    let t = run_cases();
    say(&rt, "cases:                           ", t.cases)?;
    say(&rt, "with a plan:                     ", t.planned)?;
    say(&rt, "plans of the simplex that pass:  ", t.passed)?;
    say(&rt, "spoiled plans that are refused:  ", t.refused)?;
    say(&rt, "climbs on a spoiled tree:        ", t.climbed)?;
    say(&rt, "stretches searched for:          ", t.searched)?;
    say(&rt, "the same on a spoiled tree:      ", t.recovered)?;
    say(&rt, "differences:                     ", t.differences)
}

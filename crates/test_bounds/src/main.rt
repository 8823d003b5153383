// Random small cases with two tables, the same at each run: the splits that can be the cheapest, and the smallest and the largest least
// total, against every table between the bounds.
#![tactic(auto)]

mod brute;
mod case;
mod draw;
mod expect;
mod trial;

use crate::draw::{draw_above, draw_costs};
use crate::trial::{Seen, hold};
use lent_case::Case;
use refusal::Cause;
use std::io;
use test_draws::slices::first;
use test_draws::tally::say;
use test_draws::{after, below, draw};

const CASES: u64 = 3_000;

// What was found over all cases.
#[derive(Clone, Copy, PartialEq, Eq, Debug, Drop)]
struct Tally {
    cases: u64,
    known: u64,
    refused: u64,
    wrong_high: u64,
    short: u64,
    splits: u64,
    possible: u64,
    tables: u64,
    differences: u64,
}

impl Tally {
    fn new() -> Tally {
        Tally {
            cases: 0,
            known: 0,
            refused: 0,
            wrong_high: 0,
            short: 0,
            splits: 0,
            possible: 0,
            tables: 0,
            differences: 0,
        }
    }

    // The tally and one case more.
    fn with(self, s: Seen) -> Tally {
        let cause = s.said.err().map(|refusal| refusal.cause);
        Tally {
            cases: self.cases.saturating_add(1),
            known: self.known.saturating_add(u64::from(cause.is_none())),
            refused: self.refused.saturating_add(u64::from(cause.is_some())),
            wrong_high: self
                .wrong_high
                .saturating_add(u64::from(cause == Some(Cause::HighEntry))),
            short: self
                .short
                .saturating_add(u64::from(cause == Some(Cause::Room))),
            splits: self.splits.saturating_add(s.splits),
            possible: self.possible.saturating_add(s.possible),
            tables: self.tables.saturating_add(s.tables),
            differences: self.differences.saturating_add(u64::from(!s.agrees)),
        }
    }
}

// What is varied: high low entries, all high entries one lower, the last high entry left out, few cells for the answers, a least run, or nothing.
#[derive(Clone, Copy, PartialEq, Eq, Debug, Drop)]
enum Kind {
    HighBase,
    Lower,
    OneLess,
    Few,
    Run1,
    Run2,
    Plain,
}

fn kind_of(x: u64) -> Kind {
    match below(x, 12) {
        0 => Kind::HighBase,
        1 => Kind::Lower,
        2 => Kind::OneLess,
        3 => Kind::Few,
        4 => Kind::Run1,
        5 => Kind::Run2,
        _ => Kind::Plain,
    }
}

// Draws a case from the generator's number, and holds it.
fn run_case(seed: u64) -> Seen {
    let kind = kind_of(seed);
    let mut costs = [0i64; 6];
    let mut supplies = [0u64; 3];
    let mut demands = [0u64; 2];
    let mut ceilings = [0u64; 6];
    let mut low = [0u64; 8];
    let mut high = [0u64; 8];
    let base = if kind == Kind::HighBase {
        999_999_996
    } else {
        0
    };
    let a = draw_costs(seed, &mut costs);
    let b = draw(a, 1, 6, &mut supplies);
    let c = draw(b, 1, 6, &mut demands);
    let d = draw(c, 1, 7, &mut ceilings);
    let e = draw(d, base, 8, &mut low);
    draw_above(e, u64::from(kind == Kind::Lower), &low, &mut high);
    let most = (supplies[0] % 7) as usize;
    let long = most + usize::from(kind != Kind::OneLess);
    let mut answers = [7u64; 8];
    let cells = if kind == Kind::Few { 2 } else { 8 };
    hold(
        &Case {
            m: 3,
            n: 2,
            run1: u64::from(kind == Kind::Run1),
            run2: u64::from(kind == Kind::Run2),
            costs: &costs,
            supplies: &supplies,
            demands: &demands,
            ceilings: &ceilings,
            table: first(&low, most + 1),
        },
        first(&high, long),
        &mut answers[..cells],
    )
}

fn run_cases() -> Tally {
    let mut t = Tally::new();
    let mut x: u64 = 20_260_209;
    for _ in 0..CASES {
        x = after(x);
        t = t.with(run_case(x));
    }
    t
}

fn main(rt: HostRuntime) -> io::Result<()> {
    let t = run_cases();
    say(&rt, "cases:                 ", t.cases)?;
    say(&rt, "answered:              ", t.known)?;
    say(&rt, "refused:               ", t.refused)?;
    say(&rt, "refused by 28:         ", t.wrong_high)?;
    say(&rt, "refused by 11:         ", t.short)?;
    say(&rt, "tables tried:          ", t.tables)?;
    say(&rt, "splits:                ", t.splits)?;
    say(&rt, "can be the cheapest:   ", t.possible)?;
    say(&rt, "differences:           ", t.differences)
}

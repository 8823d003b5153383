// Runs random histories of depot and reader on two stores alike but for production entries, in the case and its marks, and holds what they get of
// the one to what they get of the other: answers, refusals, and each lent cell.
#![tactic(auto)]

ghost use Rattle.std.specs.Prelude.{◌≡◌, length};

use crate::calls::{call_both, plan_both};
use lent_case::Case;
use refusal::Refusal;
use std::io;
use test_calls::make;
use test_compare::Met;
use test_compare::draws::Call;
use test_draws::tally::{Tally, say};
use test_draws::{after, below};

mod calls;

const HISTORIES: u64 = 1_000;

const CALLS: u64 = 12;

const CEILINGS: [u64; 6] = [3, 4_000, 4_000, 2, 4_000, 0];

fn new_store() -> [u64; 36333]
    ensures { 36333 ≡ length result }
{
    [7; 36333]
}

// Enters case A with least runs of 1, and other entries.
fn enter(seed: u64, store: &mut [u64]) -> Result<(), Refusal> {
    let costs = [2i64, 6, 5, 3, 1, 4];
    let supplies = [3u64, 3, 1];
    let demands = [3u64, 2];
    let x = after(seed);
    let table = [seed, below(seed, 300), below(x, 300), below(after(x), 300)];
    let case = Case {
        m: 3,
        n: 2,
        run1: 1,
        run2: 1,
        costs: &costs,
        supplies: &supplies,
        demands: &demands,
        ceilings: &CEILINGS,
        table: &table,
    };
    roles::enter(&case, store)
}

// The planner sets a mark, then alters an entry.
fn mark(k: usize, split: usize, entry: u64, store: &mut [u64]) -> Result<(), Refusal> {
    make(1, Call::SetMark(k), store)?;
    make(1, Call::Entry { split, entry }, store)
}

// Makes a store ready.
fn prepare(seed: u64, store: &mut [u64]) -> Result<(), Refusal> {
    enter(seed, store)?;
    mark(2, 1, below(after(seed), 300), store)?;
    mark(4, 2, below(after(after(seed)), 300), store)
}

// Depot or reader, the depot more often.
fn role(seed: u64) -> usize {
    if below(after(after(seed)), 4) == 0 {
        4
    } else {
        3
    }
}

// The seed for the next call.
fn next(seed: u64) -> u64 {
    after(after(after(after(after(after(seed))))))
}

// What was met over all histories: stores made ready, what planners hear, and what depot and reader hear.
#[derive(Clone, Copy, PartialEq, Eq, Debug, Drop)]
struct Tallies {
    ready: Tally<128>,
    planner: Tally<128>,
    heard: Tally<128>,
}

// Runs one history from a seed, and gives the seed after it.
fn run_history(from: u64, a: &mut [u64], b: &mut [u64], heard: &mut Tally<128>) -> u64 {
    let mut seed = from;
    for _ in 0..CALLS {
        let met = call_both(role(seed), seed, a, b);
        heard.count(met.place());
        seed = next(seed);
    }
    seed
}

fn report(rt: &impl Print, t: &Tallies) -> io::Result<()> {
    say(rt, "stores made ready:          ", t.ready.of(0))?;
    say(rt, "a planner tells them apart: ", t.planner.of(100))?;
    say(rt, "depot and reader, done:     ", t.heard.of(0))?;
    say(rt, "refused 4:                  ", t.heard.of(4))?;
    say(rt, "refused 23:                 ", t.heard.of(23))?;
    say(rt, "refused 24:                 ", t.heard.of(24))?;
    say(rt, "refused 31:                 ", t.heard.of(31))?;
    say(rt, "heard differently:          ", t.heard.of(100))
}

fn run_all(rt: &impl Print, a: &mut [u64], b: &mut [u64]) -> io::Result<()> {
    let mut ready = Tally::<128>::new();
    let mut planner = Tally::<128>::new();
    let mut heard = Tally::<128>::new();
    let mut seed: u64 = 20_260_212;
    for _ in 0..HISTORIES {
        let first = prepare(seed, a);
        let second = prepare(after(seed), b);
        ready.count(Met::of(first.is_ok()).place());
        ready.count(Met::of(second.is_ok()).place());
        planner.count(plan_both(1, a, b).place());
        seed = run_history(after(seed), a, b, &mut heard);
    }
    report(
        rt,
        &Tallies {
            ready,
            planner,
            heard,
        },
    )
}

fn main(rt: HostRuntime) -> io::Result<()> {
    let mut store = new_store();
    let mut other = new_store();
    run_all(&rt, &mut store, &mut other)
}

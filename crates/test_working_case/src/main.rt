// Runs random histories of calls by roles on working cases of several sizes, and holds each answer, each plan and all that is shown to a plain model that
// keeps whole copies; and tries stores that hold no working case, or garbage.
#![tactic(auto)]

ghost use Rattle.std.specs.Prelude.{◌≡◌, length};

use crate::closed::{all_refused, litter, plan_shown, spoilt_heads};
use crate::plans::{plan_both, plan_mark_both};
use crate::seen::seen;
use lent_case::Case;
use refusal::Refusal;
use std::io;
use test_calls::make;
use test_compare::Met;
use test_draws::slices::first;
use test_draws::tally::{Tally, say};
use test_draws::{after, below};
use test_history::draws::{drawn, next_request};
use test_history::model::{Copy, Model, first_case};
use test_history::refusals::refusal;

mod closed;
mod plans;
mod seen;

const HISTORIES: u64 = 1_000;

const CALLS: u64 = 24;

// Cells for 4 sources and 3 terminals.
fn new_store() -> [u64; 36459]
    ensures { 36459 ≡ length result }
{
    [7; 36459]
}

// Enters a first case, which has four entries.
fn enter(c: &Copy, store: &mut [u64]) -> Result<(), Refusal> {
    let lanes = c.lanes();
    let case = Case {
        m: c.m,
        n: c.n,
        run1: c.run1,
        run2: c.run2,
        costs: first(&c.costs, lanes),
        supplies: first(&c.supplies, c.m),
        demands: first(&c.demands, c.n),
        ceilings: first(&c.ceilings, lanes),
        table: first(&c.table, 4),
    };
    roles::enter(&case, store)
}

// What was met over all histories: calls, plans, marks planned, and what is shown.
#[derive(Clone, Copy, PartialEq, Eq, Debug, Drop)]
struct Tallies {
    calls: Tally<128>,
    plans: Tally<128>,
    marked: Tally<128>,
    shown: Tally<128>,
}

// Runs one history from a seed, and gives the seed after it.
fn run_history(from: u64, store: &mut [u64], t: &mut Tallies) -> u64 {
    let mut seed = from;
    let mut model = Model::new(first_case(seed));
    let entered = enter(&model.case, store);
    t.calls.count(Met::of(entered.is_ok()).place());
    for _ in 0..CALLS {
        seed = after(seed);
        let r = next_request(seed);
        let want = refusal(&model, r);
        let told = make(r.role, r.call, store);
        let met = Met::by(told == want, told);
        t.calls.count(met.place());
        if met == Met::Done {
            model.call(r.call);
        }
        t.plans.count(plan_both(store, &model.case).place());
        let mark = below(drawn(seed, 9), 10) as usize;
        t.marked.count(plan_mark_both(store, &model, mark).place());
        t.shown.count(Met::of(seen(store, &model, r.role)).place());
    }
    t.shown.count(Met::of(spoilt_heads(store)).place());
    seed
}

fn report(rt: &impl Print, t: &Tallies) -> io::Result<()> {
    say(rt, "done:                   ", t.calls.of(0))?;
    say(rt, "refused 4:              ", t.calls.of(4))?;
    say(rt, "refused 5:              ", t.calls.of(5))?;
    say(rt, "refused 23:             ", t.calls.of(23))?;
    say(rt, "refused 24:             ", t.calls.of(24))?;
    say(rt, "refused 25:             ", t.calls.of(25))?;
    say(rt, "refused 31:             ", t.calls.of(31))?;
    say(rt, "planned:                ", t.plans.of(0))?;
    say(rt, "plan refused 7:         ", t.plans.of(7))?;
    say(rt, "plan refused 8:         ", t.plans.of(8))?;
    say(rt, "plan refused 9:         ", t.plans.of(9))?;
    say(rt, "plan refused 27:        ", t.plans.of(27))?;
    say(rt, "marks planned:          ", t.marked.of(0))?;
    say(rt, "mark refused 24:        ", t.marked.of(24))?;
    say(rt, "mark refused 25:        ", t.marked.of(25))?;
    say(rt, "shown as it should be:  ", t.shown.of(0))?;
    say(rt, "calls that differ:      ", t.calls.of(100))?;
    say(rt, "plans that differ:      ", t.plans.of(100))?;
    say(rt, "marks that differ:      ", t.marked.of(100))?;
    say(rt, "shown otherwise:        ", t.shown.of(100))
}

fn run_all(rt: &impl Print, store: &mut [u64]) -> io::Result<()> {
    let mut t = Tallies {
        calls: Tally::new(),
        plans: Tally::new(),
        marked: Tally::new(),
        shown: Tally::new(),
    };
    let mut seed: u64 = 20_260_204;
    for _ in 0..HISTORIES {
        seed = run_history(seed, store, &mut t);
    }
    report(rt, &t)
}

// Stores with garbage behind their head.
fn run_litter(store: &mut [u64], tally: &mut Tally<128>) {
    let mut seed: u64 = 7;
    for _ in 0..100 {
        seed = litter(seed, store);
        tally.count(Met::of(plan_shown(store)).place());
    }
}

// A case of 2 sources and 1 terminal, then garbage behind its head.
fn run_garbage(rt: &impl Print, store: &mut [u64]) -> io::Result<()> {
    let mut tally = Tally::<128>::new();
    let costs = [1i64, 2];
    let ones = [1u64, 1];
    let one = [1u64];
    let case = Case {
        m: 2,
        n: 1,
        run1: 0,
        run2: 0,
        costs: &costs,
        supplies: &ones,
        demands: &one,
        ceilings: &ones,
        table: &ones,
    };
    let entered = roles::enter(&case, store);
    tally.count(Met::of(entered.is_ok()).place());
    run_litter(store, &mut tally);
    say(rt, "garbage as it is shown: ", tally.of(0))?;
    say(rt, "garbage otherwise:      ", tally.of(100))
}

fn main(rt: HostRuntime) -> io::Result<()> {
    let mut store = new_store();
    let sevens = Met::of(all_refused(&mut store));
    say(&rt, "a store of sevens:      ", sevens.place() as u64)?;
    run_all(&rt, &mut store)?;
    run_garbage(&rt, &mut store)
}

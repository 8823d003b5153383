// Calls of a working case by a role, with all that they say and show. Each lent cell holds 7 before.
#![tactic(auto)]

use refusal::Refusal;
use test_compare::draws::Call;
use test_plans::Planning;

// What seeing the tariff says and shows.
#[derive(Clone, Copy, PartialEq, Eq, Debug)]
pub struct Tariff<const C: usize, const S: usize, const D: usize> {
    pub said: Result<(), Refusal>,
    pub costs: [i64; C],
    pub supplies: [u64; S],
    pub demands: [u64; D],
}

// What seeing the limits says and shows.
#[derive(Clone, Copy, PartialEq, Eq, Debug)]
pub struct Limits<const R: usize, const C: usize> {
    pub said: Result<(), Refusal>,
    pub runs: [u64; R],
    pub ceilings: [u64; C],
}

// What seeing the table, or which marks are set, says and shows.
#[derive(Clone, Copy, PartialEq, Eq, Debug)]
pub struct Shown<const N: usize> {
    pub said: Result<(), Refusal>,
    pub cells: [u64; N],
}

// Makes a call: an edit, a mark or a return.
pub fn make(role: usize, call: Call, store: &mut [u64]) -> Result<(), Refusal> {
    match call {
        Call::Demand { terminal, amount } => roles::edit_demand(role, terminal, amount, store),
        Call::Supply { source, amount } => roles::edit_supply(role, source, amount, store),
        Call::Cost {
            source,
            terminal,
            cost,
        } => roles::edit_cost(role, source, terminal, cost, store),
        Call::Entry { split, entry } => roles::edit_entry(role, split, entry, store),
        Call::SetMark(k) => roles::set_mark(role, k, store),
        Call::GoBack(k) => roles::go_back(role, k, store),
    }
}

pub fn plan_case<const P: usize, const S: usize>(role: usize, store: &[u64]) -> Planning<P, S> {
    let mut plan = [7; P];
    let mut splits = [7; S];
    let mut freights = [7; S];
    let answer = roles::plan_case(role, store, &mut plan, &mut splits, &mut freights);
    Planning {
        answer,
        plan,
        splits,
        freights,
    }
}

pub fn plan_mark<const P: usize, const S: usize>(
    role: usize,
    k: usize,
    store: &[u64],
) -> Planning<P, S> {
    let mut plan = [7; P];
    let mut splits = [7; S];
    let mut freights = [7; S];
    let answer = roles::plan_mark(role, k, store, &mut plan, &mut splits, &mut freights);
    Planning {
        answer,
        plan,
        splits,
        freights,
    }
}

pub fn see_tariff<const C: usize, const S: usize, const D: usize>(
    role: usize,
    store: &[u64],
) -> Tariff<C, S, D> {
    let mut costs = [7; C];
    let mut supplies = [7; S];
    let mut demands = [7; D];
    let said = roles::see_tariff(role, store, &mut costs, &mut supplies, &mut demands);
    Tariff {
        said,
        costs,
        supplies,
        demands,
    }
}

pub fn see_limits<const R: usize, const C: usize>(role: usize, store: &[u64]) -> Limits<R, C> {
    let mut runs = [7; R];
    let mut ceilings = [7; C];
    let said = roles::see_limits(role, store, &mut runs, &mut ceilings);
    Limits {
        said,
        runs,
        ceilings,
    }
}

pub fn see_table<const N: usize>(role: usize, store: &[u64]) -> Shown<N> {
    let mut cells = [7; N];
    let said = roles::see_table(role, store, &mut cells);
    Shown { said, cells }
}

pub fn marks_set<const N: usize>(role: usize, store: &[u64]) -> Shown<N> {
    let mut cells = [7; N];
    let said = roles::marks_set(role, store, &mut cells);
    Shown { said, cells }
}

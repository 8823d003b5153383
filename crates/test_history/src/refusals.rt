// The refusals of a call, as the papers have them.
use crate::draws::Request;
use crate::model::{Copy, Model};
use refusal::{Cause, Refusal};
use test_compare::draws::Call;

fn refuse_if(fails: bool, cause: Cause, place: u64) -> Result<(), Refusal> {
    if fails { Err(cause.at(place)) } else { Ok(()) }
}

// Whether k is one of 1 to n.
fn named(k: usize, n: usize) -> Result<(), Refusal> {
    refuse_if(k < 1 || n < k, Cause::NoSuch, 0)
}

// The place after so many others.
fn place(before: usize, k: usize) -> u64 {
    before.saturating_add(k) as u64
}

// A planner may do all; plant edits entries; depot edits demand and supply, except a_1; a reader edits nothing.
fn may(r: Request) -> bool {
    match r.role {
        1 => true,
        2 => matches!(r.call, Call::Entry { .. }),
        3 => match r.call {
            Call::Demand { .. } => true,
            Call::Supply { source, .. } => source != 1,
            _ => false,
        },
        _ => false,
    }
}

fn run_of(c: Copy, source: usize) -> u64 {
    match source {
        1 => c.run1,
        2 => c.run2,
        _ => 0,
    }
}

fn demand_refusal(c: Copy, terminal: usize, amount: u64) -> Result<(), Refusal> {
    named(terminal, c.n)?;
    refuse_if(4_000 < amount, Cause::Amount, place(c.m, terminal))
}

fn supply_refusal(c: Copy, source: usize, amount: u64) -> Result<(), Refusal> {
    named(source, c.m)?;
    refuse_if(4_000 < amount, Cause::Amount, place(0, source))?;
    refuse_if(
        amount < run_of(c, source),
        Cause::LeastRun,
        place(0, source),
    )
}

fn cost_refusal(c: Copy, source: usize, terminal: usize, cost: i64) -> Result<(), Refusal> {
    named(source, c.m)?;
    named(terminal, c.n)?;
    let lane = place(c.n.saturating_mul(source.saturating_sub(1)), terminal);
    refuse_if(cost < -1_000_000 || 1_000_000 < cost, Cause::UnitCost, lane)
}

// Of going back to mark k, and of planning it.
pub fn mark_refusal(model: &Model, k: usize) -> Result<(), Refusal> {
    named(k, 8)?;
    refuse_if(model.held(k).is_none(), Cause::Unset, place(0, k))
}

pub fn refusal(model: &Model, r: Request) -> Result<(), Refusal> {
    refuse_if(!may(r), Cause::Role, 0)?;
    let c = model.case;
    match r.call {
        Call::Demand { terminal, amount } => demand_refusal(c, terminal, amount),
        Call::Supply { source, amount } => supply_refusal(c, source, amount),
        Call::Cost {
            source,
            terminal,
            cost,
        } => cost_refusal(c, source, terminal, cost),
        Call::Entry { split, .. } => refuse_if(c.supplies[0] < split as u64, Cause::NoSuch, 0),
        Call::SetMark(k) => named(k, 8),
        Call::GoBack(k) => mark_refusal(model, k),
    }
}

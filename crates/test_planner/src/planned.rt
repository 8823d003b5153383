// Runs the planner on the case of the bench, and checks all that it gave.
ghost use Rattle.std.specs.Prelude.{◌≤◌};

use crate::money::spell;
use lent_case::Case;
use test_draws::slices::{first, from};
use test_referee::bench::{CEILINGS, COSTS, DEMANDS, SUPPLIES, Sizes, TABLE};
use test_referee::cells::part;
use test_referee::compare::{
    Check, Checked, Planned, Told, check_amounts, check_lanes, check_told, hold, stops_of,
};
use test_referee::money::{BLANK, cell_of};
use test_referee::paper::{Refusal, Span};

// What every cell that the planner may write holds before.
const MARK: u64 = 7_000_000_000_000;

// The cells of a slice that there is room for.
const ROOM: usize = 4_100;

// The planner's answer, and the first check that fails.
#[derive(Clone, Copy, PartialEq, Eq, Debug, Drop)]
pub struct Outcome {
    pub checked: Checked,
    pub got: Told,
}

// What the planner may write, with room for any case.
#[derive(Clone, Copy, PartialEq, Eq, Debug, Drop)]
struct Room {
    plan: [u64; ROOM],
    splits: [u64; ROOM],
    freights: [i64; ROOM],
}

// The answer, and what the planner wrote.
#[derive(Clone, Copy, PartialEq, Eq, Debug, Drop)]
struct Lent {
    got: Told,
    room: Room,
}

fn marked() -> [u64; ROOM] {
    [MARK; ROOM]
}

fn blank() -> [i64; ROOM] {
    [BLANK; ROOM]
}

// The answer in cells.
fn told(answer: Result<planner::Planned, refusal::Refusal>) -> Told {
    match answer {
        Ok(plan) => Ok(Planned {
            split: plan.split,
            total: cell_of(plan.total),
            freight: cell_of(plan.freight),
            stops: plan.stops as u64,
            ties: 0,
        }),
        Err(refusal) => Err(Refusal {
            number: refusal.cause.number(),
            place: refusal.place,
        }),
    }
}

// As many cells as a case names, or as there is room for.
fn fitted(cells: u64) -> usize
    ensures { result ≤ 4100 }
{
    ROOM.min(cells as usize)
}

// Lends the planner slices of the lengths that the case names.
fn lend(z: Sizes, b: &[u64], costs: &[i64]) -> Lent {
    let mut plan = marked();
    let mut splits = marked();
    let mut freights = blank();
    let case = Case {
        m: z.m as usize,
        n: z.n as usize,
        run1: z.run1,
        run2: z.run2,
        costs: first(costs, z.costs as usize),
        supplies: part(b, SUPPLIES, z.supplies),
        demands: part(b, DEMANDS, z.demands),
        ceilings: part(b, CEILINGS, z.ceilings),
        table: part(b, TABLE, z.table),
    };
    let answer = planner::plan(
        &case,
        &mut plan[..fitted(z.plan)],
        &mut splits[..fitted(z.splits)],
        &mut freights[..fitted(z.freights)],
    );
    Lent {
        got: told(answer),
        room: Room {
            plan,
            splits,
            freights,
        },
    }
}

// Whether the cells after the lanes and after the stops are as they were.
fn kept(room: &Room, lanes: u64, stops: u64) -> bool {
    let plan = from(&room.plan, lanes as usize);
    let splits = from(&room.splits, stops as usize);
    let freights = from(&room.freights, stops as usize);
    plan.iter().all(|x| *x == MARK)
        && splits.iter().all(|x| *x == MARK)
        && freights.iter().all(|x| *x == BLANK)
}

// The checks of a plan, and of all that the planner wrote.
fn check_plan(
    z: Sizes,
    s: Span,
    want: Planned,
    stops: u64,
    listed: bool,
    b: &[u64],
    room: &Room,
) -> Checked {
    check_amounts(z, s, want, b, &room.plan)?;
    let found = stops_of(s, b, &room.splits, &room.freights);
    hold(found == Some(stops), Check::Stops)?;
    hold(kept(room, z.costs, stops), Check::Rest)?;
    check_lanes(z, want.split, listed, b, &room.plan)
}

fn check_all(
    z: Sizes,
    s: Span,
    want: Told,
    got: Told,
    listed: bool,
    b: &[u64],
    room: &Room,
) -> Checked {
    check_told(want, got)?;
    match (want, got) {
        (Ok(plan), Ok(given)) => check_plan(z, s, plan, given.stops, listed, b, room),
        _ => hold(kept(room, 0, 0), Check::Unchanged),
    }
}

// Runs the planner, and holds its answer to the one expected. The lanes are compared where the plans are listed.
pub fn check(z: Sizes, s: Span, want: Told, listed: bool, b: &[u64]) -> Outcome {
    let mut costs = blank();
    spell(part(b, COSTS, z.costs), &mut costs);
    let lent = lend(z, b, &costs);
    Outcome {
        checked: check_all(z, s, want, lent.got, listed, b, &lent.room),
        got: lent.got,
    }
}

// Stores that hold no working case: every call is refused by 11 and changes nothing. Stores with garbage behind their head: planning is planning what is
// shown of them.
use lent_case::Case;
use refusal::Cause;
use test_calls::{
    Limits, Shown, Tariff, make, marks_set, plan_case, plan_mark, see_limits, see_table, see_tariff,
};
use test_compare::draws::Call;
use test_draws::after;
use test_draws::slices::first;
use test_plans::{Planning, plan};

fn plans_refused(store: &[u64]) -> bool {
    let eleven = Cause::Room.at(0);
    let x: Planning<13, 16> = plan_case(1, store);
    let y: Planning<13, 16> = plan_mark(1, 1, store);
    x.answer == Err(eleven) && y.answer == Err(eleven)
}

fn sights_refused(store: &[u64]) -> bool {
    let tariff: Tariff<13, 16, 16> = see_tariff(1, store);
    let table: Shown<16> = see_table(1, store);
    let limits: Limits<16, 16> = see_limits(1, store);
    let marks: Shown<16> = marks_set(1, store);
    let eleven = Err(Cause::Room.at(0));
    tariff.said == eleven && table.said == eleven && limits.said == eleven && marks.said == eleven
}

// Every kind of edit, a mark and a return.
const CALLS: [Call; 6] = [
    Call::Demand {
        terminal: 1,
        amount: 1,
    },
    Call::Supply {
        source: 1,
        amount: 5,
    },
    Call::Cost {
        source: 1,
        terminal: 1,
        cost: 1,
    },
    Call::Entry { split: 0, entry: 1 },
    Call::SetMark(1),
    Call::GoBack(1),
];

fn calls_refused(store: &mut [u64]) -> bool {
    for call in CALLS {
        if make(1, call, store) != Err(Cause::Room.at(0)) {
            return false;
        }
    }
    true
}

// Every call on a store that holds no working case.
pub fn all_refused(store: &mut [u64]) -> bool {
    calls_refused(store) && sights_refused(store) && plans_refused(store)
}

// Puts a number into a cell, and gives the number that was in it.
fn exchange(at: usize, x: u64, store: &mut [u64]) -> u64 {
    match store.get_mut(at) {
        Some(cell) => {
            let own = *cell;
            *cell = x;
            own
        }
        None => 0,
    }
}

// Every call, with another number in one cell, which then gets its own back.
fn spoilt(at: usize, x: u64, store: &mut [u64]) -> bool {
    let own = exchange(at, x, store);
    let told = all_refused(store);
    exchange(at, own, store);
    told
}

// The signature, the version before it, and sizes outside the limits: cells and numbers.
const HEADS: [(usize, u64); 6] = [
    (10, 7),
    (10, 6_431_496_879_019_655_169),
    (0, 1),
    (0, 33),
    (1, 0),
    (1, 65),
];

pub fn spoilt_heads(store: &mut [u64]) -> bool {
    for (at, x) in HEADS {
        if !spoilt(at, x, store) {
            return false;
        }
    }
    true
}

// Fills all cells but size and signature with numbers, small and large.
pub fn litter(from: u64, store: &mut [u64]) -> u64 {
    let mut seed = from;
    for (k, cell) in store.iter_mut().enumerate() {
        if 2 <= k {
            seed = after(seed);
            if k != 10 {
                *cell = seed % 4_003;
            }
        }
    }
    seed
}

// Plans a store of 2 sources and 1 terminal, and plans what is shown of it: are both the same?
pub fn plan_shown(store: &[u64]) -> bool {
    let tariff: Tariff<2, 2, 1> = see_tariff(1, store);
    let limits: Limits<2, 2> = see_limits(1, store);
    let table: Shown<4001> = see_table(1, store);
    if tariff.said.is_err() || limits.said.is_err() || table.said.is_err() {
        return false;
    }
    plan_same(store, &tariff, &limits, &table)
}

fn plan_same(
    store: &[u64],
    tariff: &Tariff<2, 2, 1>,
    limits: &Limits<2, 2>,
    table: &Shown<4001>,
) -> bool {
    let entries = (tariff.supplies[0] as usize).saturating_add(1);
    let shown: Planning<2, 4001> = plan(&Case {
        m: 2,
        n: 1,
        run1: limits.runs[0],
        run2: limits.runs[1],
        costs: &tariff.costs,
        supplies: &tariff.supplies,
        demands: &tariff.demands,
        ceilings: &limits.ceilings,
        table: first(&table.cells, entries),
    });
    shown == plan_case(1, store)
}

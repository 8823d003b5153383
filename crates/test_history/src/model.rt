// A plain working case of at most 4 sources and 3 terminals: whole copies. Cells that the case does not have hold 7, as the slices do that it is shown in.
use crate::draws::drawn;
use test_compare::draws::{Call, small_cost};
use test_draws::below;

#[derive(Clone, Copy, PartialEq, Eq, Debug, Drop)]
pub struct Copy {
    pub m: usize,
    pub n: usize,
    pub run1: u64,
    pub run2: u64,
    pub supplies: [u64; 5],
    pub demands: [u64; 4],
    pub costs: [i64; 13],
    pub ceilings: [u64; 13],
    pub table: [u64; 16],
}

impl Copy {
    pub fn lanes(&self) -> usize {
        self.m.saturating_mul(self.n)
    }
}

fn costs_of(seed: u64, lanes: usize) -> [i64; 13] {
    let mut costs = [7i64; 13];
    for (k, cost) in costs.iter_mut().enumerate() {
        if k < lanes {
            *cost = small_cost(drawn(seed, 20 + k as u64 % 13));
        }
    }
    costs
}

// A ceiling of 0 to 3, or of 4,000.
fn ceiling(x: u64) -> u64 {
    match below(x, 8) {
        k if k < 4 => k,
        _ => 4_000,
    }
}

fn ceilings_of(seed: u64, lanes: usize) -> [u64; 13] {
    let mut ceilings = [7u64; 13];
    for (k, cell) in ceilings.iter_mut().enumerate() {
        if k < lanes {
            *cell = ceiling(drawn(seed, 40 + k as u64 % 13));
        }
    }
    ceilings
}

// Five for the terminals together.
fn demands_of(n: usize) -> [u64; 4] {
    match n {
        1 => [5, 7, 7, 7],
        2 => [3, 2, 7, 7],
        _ => [2, 2, 1, 7],
    }
}

// Three for each plant, and one for each depot.
fn supplies_of(m: usize) -> [u64; 5] {
    match m {
        2 => [3, 3, 7, 7, 7],
        3 => [3, 3, 1, 7, 7],
        _ => [3, 3, 1, 1, 7],
    }
}

pub fn first_case(seed: u64) -> Copy {
    let m = 2 + below(drawn(seed, 10), 3) as usize % 3;
    let n = 1 + below(drawn(seed, 11), 3) as usize % 3;
    let lanes = m * n;
    let x = below(drawn(seed, 14), 300);
    Copy {
        m,
        n,
        run1: below(drawn(seed, 12), 2),
        run2: below(drawn(seed, 13), 2),
        supplies: supplies_of(m),
        demands: demands_of(n),
        costs: costs_of(seed, lanes),
        ceilings: ceilings_of(seed, lanes),
        table: [x, 20, 24, 20, 0, 0, 0, 0, 0, 0, 0, 0, 0, 0, 0, 0],
    }
}

// A table with another number past entry a_1.
pub fn cut(table: [u64; 16], a_1: u64, other: u64) -> [u64; 16] {
    let mut after = table;
    for (y, entry) in after.iter_mut().enumerate() {
        if a_1 < y as u64 {
            *entry = other;
        }
    }
    after
}

fn with_supply(c: Copy, source: usize, amount: u64) -> Copy {
    let mut after = c;
    if 0 < source && source <= 5 {
        after.supplies[source - 1] = amount;
    }
    if source == 1 {
        after.table = cut(c.table, amount, 0);
    }
    after
}

fn with_cost(c: Copy, source: usize, terminal: usize, cost: i64) -> Copy {
    let mut after = c;
    if 0 < source && 0 < terminal {
        let lane = c.n.saturating_mul(source - 1).saturating_add(terminal - 1);
        if lane < 13 {
            after.costs[lane] = cost;
        }
    }
    after
}

// The case after an edit that is not refused.
fn edited(c: Copy, call: Call) -> Copy {
    let mut after = c;
    match call {
        Call::Demand { terminal, amount } => {
            if 0 < terminal && terminal <= 4 {
                after.demands[terminal - 1] = amount;
            }
        }
        Call::Supply { source, amount } => after = with_supply(c, source, amount),
        Call::Cost {
            source,
            terminal,
            cost,
        } => after = with_cost(c, source, terminal, cost),
        Call::Entry { split, entry } => {
            if split < 16 {
                after.table[split] = entry;
            }
        }
        Call::SetMark(_) | Call::GoBack(_) => {}
    }
    after
}

// A working case: the case, and what each mark holds that is set.
#[derive(Clone, Copy, PartialEq, Eq, Debug, Drop)]
pub struct Model {
    pub case: Copy,
    pub marks: [Option<Copy>; 8],
}

impl Model {
    pub fn new(case: Copy) -> Model {
        Model {
            case,
            marks: [None; 8],
        }
    }

    // What mark k holds, if it is set.
    pub fn held(&self, k: usize) -> Option<Copy> {
        if 0 < k && k <= 8 {
            self.marks[k - 1]
        } else {
            None
        }
    }

    // Does a call that is not refused.
    pub fn call(&mut self, call: Call) {
        match call {
            Call::SetMark(k) => {
                if 0 < k && k <= 8 {
                    self.marks[k - 1] = Some(self.case);
                }
            }
            Call::GoBack(k) => {
                if let Some(case) = self.held(k) {
                    self.case = case;
                }
            }
            _ => self.case = edited(self.case, call),
        }
    }
}

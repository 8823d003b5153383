// All that a trial works on lies in one slice, the bench: the case, the plans listed, the tally.
// Stays: a line of the table of fixed cases, and a way to spoil a case, names any cell of any part by one number.
use crate::cells::at;

// The sizes of the case, the lengths of the lent slices, the least runs of the plants.
pub const SOURCES: u64 = 0;

pub const TERMINALS: u64 = 1;

pub const COSTS_LEN: u64 = 2;

pub const SUPPLIES_LEN: u64 = 3;

pub const DEMANDS_LEN: u64 = 4;

pub const TABLE_LEN: u64 = 5;

pub const PLAN_LEN: u64 = 6;

pub const SPLITS_LEN: u64 = 7;

pub const FREIGHTS_LEN: u64 = 8;

pub const CEILINGS_LEN: u64 = 9;

pub const RUN1: u64 = 10;

pub const RUN2: u64 = 11;
// 1 where the least freight at each split is given, and the answer that the scope gives to a fixed case.
pub const KNOWN: u64 = 12;

pub const ANSWER: u64 = 13;
// A cell that nothing reads.
pub const SPARE: u64 = 19;
// The slices that are read.
pub const SUPPLIES: u64 = 20;

pub const DEMANDS: u64 = 60;

pub const TABLE: u64 = 200;

pub const CEILINGS: u64 = 4_400;

pub const COSTS: u64 = 6_500;
// The listing: the amounts at hand, then of each split the least freight (NONE where there is no plan), how many plans
// have it, and the first of them, whose lanes have 12 cells.
pub const AMOUNTS: u64 = 130;

pub const BEST: u64 = 9_200;

pub const TIES: u64 = 150;

pub const FIRSTS: u64 = 8_700;

// How many cells all that has, a second room for it, the ways to spoil a case, and the tally.
pub const CASE: u64 = 13_300;

pub const BASE: u64 = 13_300;

pub const WAYS: u64 = 26_600;

pub const TALLY: u64 = 26_700;

// How many splits, and cells of a slice lent to the planner, there is room for.
pub const ROOM: u64 = 4_100;

// Signed numbers lie in the bench as their distance above -ZERO: a unit cost, a freight or a total v is the cell ZERO + v.
pub const ZERO: u64 = 500_000_000_000;

// The sizes of a case, the lengths of its slices and its least runs.
#[derive(Clone, Copy, PartialEq, Eq, Debug, Drop)]
pub struct Sizes {
    pub m: u64,
    pub n: u64,
    pub costs: u64,
    pub supplies: u64,
    pub demands: u64,
    pub table: u64,
    pub plan: u64,
    pub splits: u64,
    pub freights: u64,
    pub ceilings: u64,
    pub run1: u64,
    pub run2: u64,
}

pub fn sizes_of(b: &[u64]) -> Sizes {
    Sizes {
        m: at(b, SOURCES),
        n: at(b, TERMINALS),
        costs: at(b, COSTS_LEN),
        supplies: at(b, SUPPLIES_LEN),
        demands: at(b, DEMANDS_LEN),
        table: at(b, TABLE_LEN),
        plan: at(b, PLAN_LEN),
        splits: at(b, SPLITS_LEN),
        freights: at(b, FREIGHTS_LEN),
        ceilings: at(b, CEILINGS_LEN),
        run1: at(b, RUN1),
        run2: at(b, RUN2),
    }
}

// A case as its caller lends it: its size, the least runs of the two plants, and five slices. No function.
#![tactic(auto)]

// A case of m sources and n terminals. Nothing is asked of it: the planner's tests look at it.
#[derive(Clone, Copy)]
pub struct Case<'a> {
    pub m: usize,
    pub n: usize,
    pub run1: u64,
    pub run2: u64,
    pub costs: &'a [i64],
    pub supplies: &'a [u64],
    pub demands: &'a [u64],
    pub ceilings: &'a [u64],
    pub table: &'a [u64],
}

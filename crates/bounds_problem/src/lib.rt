// Production cost known between two bounds: the definitions, the curve from the stops, and which splits can be the cheapest by it.
#![tactic(auto)]

pub mod curve;
pub mod settle;

// The first split, how many splits there are, and the smallest and the largest that the least total can be.
#[derive(Clone, Copy, Debug, PartialEq, Eq)]
pub struct Known {
    pub first: u64,
    pub count: usize,
    pub smallest: i64,
    pub largest: i64,
}

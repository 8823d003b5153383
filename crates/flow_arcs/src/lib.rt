// What is found of a network in DIMACS form, with what is to be written of its arcs in arrays.
#![tactic(auto)]

pub mod find;

// An arc as its line says it: the numbers of its two nodes, from 1, its ceiling and its cost.
#[derive(Clone, Copy, Debug, PartialEq, Eq)]
pub struct Arc {
    pub start: u64,
    pub end: u64,
    pub ceiling: u64,
    pub cost: i64,
}

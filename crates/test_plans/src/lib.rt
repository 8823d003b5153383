// Cases planned, for trials: what is lent, what is answered, and what is written.
#![tactic(auto)]

use lent_case::Case;
use planner::Planned;
use refusal::Refusal;

// What is answered and written, with room for P lanes and S stops.
#[derive(Clone, Copy, PartialEq, Eq, Debug)]
pub struct Planning<const P: usize, const S: usize> {
    pub answer: Result<Planned, Refusal>,
    pub plan: [u64; P],
    pub splits: [u64; S],
    pub freights: [i64; S],
}

// Plans a case. Each lent cell holds 7 before.
pub fn plan<const P: usize, const S: usize>(c: &Case) -> Planning<P, S> {
    let mut plan = [7; P];
    let mut splits = [7; S];
    let mut freights = [7; S];
    let answer = planner::plan(c, &mut plan, &mut splits, &mut freights);
    Planning {
        answer,
        plan,
        splits,
        freights,
    }
}

// Judges a case and an answer without the planner's code: the refusals as the scope has them, a listing of all plans of a small case,
// and the checks of an answer.
#![tactic(auto)]

pub mod bench;
pub mod cells;
pub mod compare;
pub mod listing;
pub mod money;
pub mod paper;

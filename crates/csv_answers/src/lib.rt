// Prints the answers of bounds and flow as CSV into lent slices.
#![tactic(auto)]

pub mod bounds;
pub mod flow;

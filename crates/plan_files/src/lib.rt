// Plans the case that two CSV files are, and prints the plan.
#![tactic(auto)]

pub mod planned;

// Reads a CSV file as a table of integers.
#![tactic(auto)]

pub mod store;
pub mod table;

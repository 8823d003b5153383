// The cases of the trials: drawn at random, and read from the lines of a table.
#![tactic(auto)]

pub mod random;
pub mod rows;

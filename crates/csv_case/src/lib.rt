// Reads a planning case from its two CSV files.
#![tactic(auto)]

pub mod case;
pub mod cells;

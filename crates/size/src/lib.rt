// The size of a case within its limits.
#![tactic(auto)]

pub mod limits;

// Section 5's case of a network, built in lent slices, and what its tests read. `flow_network` alone calls these functions, and meets what they ask.
#![tactic(auto)]

pub mod build;
pub mod checks;
pub mod rows;

// Step 1 by cheapest paths: a cheapest plan at the first split that has one within the ceilings.
#![tactic(auto)]

pub mod base;

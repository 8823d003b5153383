// Step 1 by network simplex or by cheapest paths, and the first and the last split that have a plan within the ceilings.
#![tactic(auto)]

pub mod begin;
mod quick;
pub mod trial;

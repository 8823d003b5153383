// Cheapest paths in the residual network, nearest node first.
#![tactic(auto)]

pub mod search;

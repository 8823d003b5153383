// Ways over free lanes, which cost nothing.
#![tactic(auto)]

pub mod reach;

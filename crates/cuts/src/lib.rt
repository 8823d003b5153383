// The cut of a part of the nodes, which shifts potentials and keeps a plan slack, and cuts until the tree's path has room again. Nothing is asked of the
// tree: what it says is checked, and where a check fails the potentials stay as they are.
#![tactic(auto)]

pub mod advance;
pub mod columns;
mod cut;

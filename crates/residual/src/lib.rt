// The residual network of a plan: its arcs, the labels of its nodes, and one pass over the arcs out of a node.
#![tactic(auto)]

pub mod lanes;
pub mod relax;

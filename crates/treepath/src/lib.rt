// The path of a stretch as a spanning tree has it, each of its arcs checked. Nothing is asked of the tree.
#![tactic(auto)]

pub mod follow;

// What goes along a path: its arcs and its smallest ceiling, the drums, the potentials after it.
#![tactic(auto)]

pub mod send;

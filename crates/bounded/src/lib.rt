// A cheapest plan at given amounts within lane ceilings by network simplex, on arrays: the form of `simplex` for ceilings below demands. Its functions
// are proved to be safe and to end; of what they find nothing is promised: whoever takes it checks it.
//
// Nodes are those of `spanningtree`; parent[v] is the node above v, and sources_below[v] and terminals_below[v] have the nodes of the subtree of v, a bit
// for each. A lane is in the tree, or empty, or full: a bit of full, by source, tells the latter. Where a source has no other way a lane goes above its
// ceiling, at a fine for each drum: price[k] is the unit cost of lane k, with the fine where the lane is full or closed.
#![tactic(auto)]

mod exchange;
mod fits;
mod leaving;
mod prices;
mod residuals;
pub mod solve;
mod start;

// A cheapest plan at given amounts by network simplex, on arrays. Its functions are proved to be safe and to end; of what they find nothing
// is promised: whoever takes it checks it.
// The tree is that of `spanningtree`, flow[v] what the lane between v and the node above it carries.
#![tactic(auto)]

pub mod book;
mod flow;
pub mod potentials;
pub mod price;
pub mod solve;
mod start;

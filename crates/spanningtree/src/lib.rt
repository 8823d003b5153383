// A spanning tree of sources and terminals in arrays, and how it changes. Its functions are proved to be safe and to end; of the tree nothing is
// promised: whoever takes a path, a part or a plan from it checks that.
//
// Nodes: source i is node i, terminal j is node 32 + j. The tree hangs from source 0: parent[v] is the node above v, 96 where there is none,
// sources_below[v] and terminals_below[v] have the sources and the terminals of the part that hangs from v, v with it, a bit for each.
// Arrays have 128 cells, so that an index under % 128 is in bounds.
#![tactic(auto)]

pub mod entering;
pub mod flows;
pub mod parts;
pub mod tree;

// No node.
// Stays: a number and no Option in the cells of parent, since whatever number stands there is the index of a cell.
pub const NONE: u32 = 96;

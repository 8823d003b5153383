// DIMACS minimum-cost flow files: the bytes of a line, the lines, their order, and what they say, kept in cells. `flow_network`, `flow_files`
// and `flow_command` alone call these functions, with arrays of the sizes that they ask for.
#![tactic(auto)]

pub mod bytes;
pub mod form;
pub mod line;
pub mod store;

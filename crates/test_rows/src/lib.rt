// Rows of a table of damaged files: their fields, and the files that their texts stand for.
#![tactic(auto)]

pub mod input;
pub mod parts;
pub mod text;

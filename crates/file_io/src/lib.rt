// The bytes of files, where in a file a byte stands, and sentences on standard error. It decides nothing.
#![tactic(auto)]

pub mod about;
pub mod arguments;
pub mod file;
pub mod message;
pub mod place;
pub mod shown;
pub mod text;

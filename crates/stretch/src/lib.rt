// One stretch of the freight curve: the path from plant 1 to plant 2, the drums that go along it, the best split so far.
#![tactic(auto)]

mod shift;
pub mod stretch;
mod undo;

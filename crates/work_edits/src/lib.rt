// Entering and editing a working case in a store that is known to be open.
// Not offered: `work_case` alone calls these functions, and meets what they ask. Callers have `roles`.
#![tactic(auto)]

pub mod costs;
pub mod edits;
pub mod entry;

// A working case with marks in one lent store: its definitions, their laws, where its parts stand, and marks in a store that is known to be open.
// Not offered: `work_case` and `work_edits` alone call these functions, and meet what they ask. Callers have `roles`.
#![tactic(auto)]

pub mod layout;
pub mod marks;
pub mod opened;

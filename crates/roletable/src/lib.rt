// Roles, and which deeds each may do: the table, what is promised of calls by roles, and that depot and reader learn nothing of entries.
#![tactic(auto)]

pub mod table;

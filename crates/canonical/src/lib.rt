// Of the plans as cheap as a slack plan, the one for everybody.
#![tactic(auto)]

pub mod canon;

// Whether a plan with potentials, wherever it comes from, is what step 1 finds: its rows and columns have the amounts asked for, and every lane
// is slack and within its ceiling.
#![tactic(auto)]

pub mod check;
pub mod serving;

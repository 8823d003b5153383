// A plain model of a working case: random requests, whole copies of cases with what an edit makes of them, and the refusal that is due. It
// knows nothing of the store and calls none of its functions.
#![tactic(auto)]

pub mod draws;
pub mod model;
pub mod refusals;

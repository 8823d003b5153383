// The working arrays of a lent case: costs raised, ceilings, supplies and demands copied in, amounts copied out.
#![tactic(auto)]

pub mod work;

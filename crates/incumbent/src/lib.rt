// The incumbent, the best split seen so far, and the look at each split of a straight stretch of the freight curve for a better one.
#![tactic(auto)]

pub mod scan;

// The best split seen so far, with its total and its freight.
#[derive(Clone, Copy)]
pub struct Incumbent {
    pub split: u64,
    pub total: u64,
    pub freight: u64,
}

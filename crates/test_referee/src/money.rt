// Signed numbers, as the planner takes and gives them, and the cells that stand for them.
use crate::bench::ZERO;

// What every signed cell that the planner may write holds before.
pub const BLANK: i64 = 7_000_000_000_000;

// The cell of a signed number.
pub fn cell_of(v: i64) -> u64 {
    let size = v.unsigned_abs();
    if v < 0 {
        ZERO.saturating_sub(size)
    } else {
        ZERO.saturating_add(size)
    }
}

// The cell of the k-th number, if there is one.
pub fn signed_at(s: &[i64], k: u64) -> Option<u64> {
    s.get(k as usize).map(|v| cell_of(*v))
}

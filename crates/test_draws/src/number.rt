// Signed numbers as numbers.

// A signed number, raised; 0 where it is below 0 then.
pub fn raised(v: i64, by: i64) -> u64 {
    u64::try_from(v.saturating_add(by)).unwrap_or(0)
}

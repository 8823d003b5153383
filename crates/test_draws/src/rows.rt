// Rows of numbers, one after the other.

// Goes on to the next row: one more at the first number below its limit, and 0 before it. Is there one?
pub fn next_row<F: Fn(usize) -> u64>(row: &mut [u64], limit: F) -> bool
    requires { F.IsAlwaysCallable limit }
{
    for (k, number) in row.iter_mut().enumerate() {
        let now = *number;
        if now < limit(k) {
            *number = now + 1;
            return true;
        }
        *number = 0;
    }
    false
}

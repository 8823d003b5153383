// Rows of a table, and parts of a text, as far as it goes.
ghost use Rattle.std.specs.Prelude.{◌≤◌, length};

use std::io;
use test_draws::slices::{at_or, first, from};

// The byte at an offset, or 0 past the end.
pub fn byte(s: &[u8], k: usize) -> u8 {
    at_or(s, k, 0)
}

// How many bytes stand before the first byte b; all where there is none.
pub fn before(s: &[u8], b: u8) -> usize
    ensures { result ≤ length s.now }
{
    s.iter().position(|x| *x == b).unwrap_or(s.len())
}

// The field k of a row, from 0: what stands behind its k-th bar, up to the next; empty where there are not so many.
pub fn field(row: &[u8], k: usize) -> &[u8] {
    row.split(|b| *b == b'|').nth(k).unwrap_or(&row[..0])
}

// A number with a digit behind it; the number where there is no room.
fn with_digit(n: u64, digit: u8) -> u64 {
    if n < 1_000_000_000_000_000 {
        n * 10 + u64::from(digit.saturating_sub(b'0'))
    } else {
        n
    }
}

// The number that the digits in front of a text make, 0 where there are none.
pub fn number(s: &[u8]) -> u64 {
    s.iter()
        .take_while(|b| b.is_ascii_digit())
        .fold(0, |n, b| with_digit(n, *b))
}

// Is a line a row? An empty line and a line that begins with # are none.
fn is_row(line: &[u8]) -> bool {
    !matches!(byte(line, 0), 0 | b'#')
}

// Runs each row of a table, whose lines end.
pub fn run_rows<F: FnMut(&[u8]) -> io::Result<()>>(table: &[u8], mut run: F) -> io::Result<()>
    requires { F.IsAlwaysCallable run }
{
    let mut start: usize = 0;
    for (k, b) in table.iter().enumerate() {
        if *b == b'\n' {
            let line = from(first(table, k), start);
            if is_row(line) {
                run(line)?;
            }
            start = k + 1;
        }
    }
    Ok(())
}

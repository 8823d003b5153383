// What stands in a line: spaces and numbers, each read at an offset of the line's bytes.
ghost use Rattle.std.specs.Prelude.{◌≡◌, ◌+◌, ◌≤◌, ◌<◌, length, get_or};
ghost use Rattle.dimacs.specs.Bytes.{counting, number, signed, field, signed_field};
ghost use Rattle.dimacs.specs.inner.Reader.{DigitsRead, SpacesRead, NumberRead, SignedRead};

use csv_form::field::with_sign;

// What was read, with the offset after it.
#[derive(Clone, Copy, Debug, PartialEq, Eq)]
pub struct Read<T> {
    pub value: T,
    pub next: usize,
}

// The byte at an offset, and LF, which no line has, past the end.
pub fn byte_at(s: &[u8], at: usize) -> u8
    ensures { result ≡ get_or s.now at 10 }
{
    if at < s.len() { s[at] } else { b'\n' }
}

// Further digits after a first one, nine at most.
fn read_digits(s: &[u8], at: usize, first: u64) -> Read<u64>
    requires at_in_bounds { at ≤ length s.now }
    requires first_bound { first ≤ 9 }
    ensures { DigitsRead s.now at first result.value result.next }
{
    let mut value = first;
    for next in at..at + 9 {
        let b = byte_at(s, next);
        if b < b'0' {
            return Read { value, next };
        }
        if b'9' < b {
            return Read { value, next };
        }
        value = value * 10 + (b - b'0') as u64;
    }
    Read {
        value,
        next: at + 9,
    }
}

// A number without a 0 in front.
fn read_counting(s: &[u8], at: usize) -> Option<Read<u64>>
    requires { at ≤ length s.now }
    ensures { NumberRead counting s.now at result }
{
    let b = byte_at(s, at);
    if b < b'1' {
        return None;
    }
    if b'9' < b {
        return None;
    }
    Some(read_digits(s, at + 1, (b - b'0') as u64))
}

// The same, or a single 0.
fn read_number(s: &[u8], at: usize) -> Option<Read<u64>>
    requires { at ≤ length s.now }
    ensures { NumberRead number s.now at result }
{
    if byte_at(s, at) == b'0' {
        return Some(Read {
            value: 0,
            next: at + 1,
        });
    }
    read_counting(s, at)
}

// A number with or without a minus; -0 is none.
fn read_signed(s: &[u8], at: usize) -> Option<Read<i64>>
    requires { at ≤ length s.now }
    ensures { SignedRead signed s.now at result }
{
    if byte_at(s, at) == b'-' {
        let n = read_counting(s, at + 1)?;
        let value = with_sign(true, n.value);
        return Some(Read {
            value,
            next: n.next,
        });
    }
    let n = read_number(s, at)?;
    let value = with_sign(false, n.value);
    Some(Read {
        value,
        next: n.next,
    })
}

// The offset after the spaces.
pub fn skip_spaces(s: &[u8], at: usize) -> usize
    requires { at ≤ length s.now }
    ensures { SpacesRead s.now at result }
{
    let mut next = at;
    loop {
        if byte_at(s, next) != b' ' {
            return next;
        }
        next += 1;
    }
}

// A further field: one or more spaces, and a number.
pub fn read_field(s: &[u8], at: usize) -> Option<Read<u64>>
    requires { at ≤ length s.now }
    ensures { NumberRead field s.now at result }
{
    if byte_at(s, at) != b' ' {
        return None;
    }
    let next = skip_spaces(s, at + 1);
    read_number(s, next)
}

pub fn read_signed_field(s: &[u8], at: usize) -> Option<Read<i64>>
    requires { at ≤ length s.now }
    ensures { SignedRead signed_field s.now at result }
{
    if byte_at(s, at) != b' ' {
        return None;
    }
    let next = skip_spaces(s, at + 1);
    read_signed(s, next)
}

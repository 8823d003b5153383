// A field, bare or in double quotes: 0, or 1 to 10 digits of which the first is not 0; these may have one minus before them in the tariff.
ghost use Rattle.std.specs.Prelude.{◌≡◌, ◌+◌, ◌≤◌, ◌<◌, ◌^◌, length, get_or, Ok};
ghost use Rattle.csv_form.specs.Form.{mark};
ghost use Rattle.csv_form.specs.Records.{signed};
ghost use Rattle.csv_form.specs.inner.Reader.{digit_of, is_minus, number_at, digits_from, number_of, close_quote, signed_at, field_at};

use crate::{Kind, Misfit};

// What is read at a field: its value, and whether a minus stands before it, with the next offset.
#[derive(Clone, Copy, Debug, PartialEq, Eq)]
pub struct Field {
    pub value: u64,
    pub minus: bool,
    pub next: usize,
}

#[derive(Clone, Copy, Debug, PartialEq, Eq)]
pub struct Digits {
    pub value: u64,
    pub next: usize,
}

// The digit at an offset, if there is one.
fn digit_at(s: &[u8], at: usize) -> Option<u64>
    ensures { result ≡ digit_of (mark (get_or s.now at 0)) }
{
    if s.len() <= at {
        return None;
    }
    let b = s[at];
    if b < b'0' {
        return None;
    }
    if b'9' < b {
        return None;
    }
    Some((b - b'0') as u64)
}

// Is there a minus at an offset, in a file whose numbers may have one?
fn minus_at(kind: Kind, s: &[u8], at: usize) -> bool
    ensures { result ≡ is_minus kind (mark (get_or s.now at 0)) }
{
    match kind {
        Kind::Production => false,
        Kind::Tariff => {
            if s.len() <= at {
                return false;
            }
            s[at] == b'-'
        }
    }
}

// The digits from an offset on, ten at most.
fn read_digits(s: &[u8], at: usize) -> Digits
    requires { at ≤ length s.now }
    ensures { result ≡ digits_from 10 s.now 0 at }
{
    let mut value: u64 = 0;
    for next in at..at + 10 {
        let Some(d) = digit_at(s, next) else {
            return Digits { value, next };
        };
        value = value * 10 + d;
    }
    Digits {
        value,
        next: at + 10,
    }
}

// Does a number begin at an offset, after a minus or not? With a digit that is not 0, or after no minus with a 0 that no digit follows.
fn number_at(minus: bool, s: &[u8], at: usize) -> bool
    ensures { result ≡ number_at minus s.now at }
{
    match digit_at(s, at) {
        None => false,
        Some(0) => {
            if minus {
                return false;
            }
            digit_at(s, at + 1).is_none()
        }
        Some(_) => true,
    }
}

// The number whose digits begin at an offset, after a minus or not.
fn read_number(minus: bool, s: &[u8], at: usize) -> Result<Field, Misfit>
    requires { at ≤ length s.now }
    ensures { result ≡ number_of minus s.now at }
{
    if !number_at(minus, s, at) {
        return Err(Misfit { place: at });
    }
    let Digits { value, next } = read_digits(s, at);
    Ok(Field { value, minus, next })
}

// A number that was read, and the quote that closes it.
fn close_quote(s: &[u8], f: Field) -> Result<Field, Misfit>
    ensures { result ≡ close_quote s.now (Ok f) }
{
    let next = f.next;
    if s.len() <= next {
        return Err(Misfit { place: next });
    }
    if s[next] != b'"' {
        return Err(Misfit { place: next });
    }
    Ok(Field {
        next: next + 1,
        ..f
    })
}

// A number with the minus before it, if there is one.
fn read_signed(kind: Kind, s: &[u8], at: usize) -> Result<Field, Misfit>
    requires { at ≤ length s.now }
    ensures { result ≡ signed_at kind s.now at }
{
    if minus_at(kind, s, at) {
        return read_number(true, s, at + 1);
    }
    read_number(false, s, at)
}

// The field at an offset.
pub fn read_field(kind: Kind, s: &[u8], at: usize) -> Result<Field, Misfit>
    requires { at ≤ length s.now }
    ensures { result ≡ field_at kind s.now at }
{
    if s.len() <= at {
        return Err(Misfit { place: at });
    }
    if s[at] != b'"' {
        return read_signed(kind, s, at);
    }
    let f = read_signed(kind, s, at + 1)?;
    close_quote(s, f)
}

// A number of at most ten digits as an integer: below 0, or 0, where it has a minus.
pub fn with_sign(minus: bool, value: u64) -> i64
    requires { value < 10 ^ 10 }
    ensures { result ≡ signed minus value }
{
    if minus {
        return 0 - value as i64;
    }
    value as i64
}

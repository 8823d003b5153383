// What stands in the line of a network file.
ghost use Rattle.std.specs.Prelude.{◌≡◌, eqb, ltb};
ghost use Rattle.file_io.specs.inner.Over.{over};
ghost use Rattle.network_causes.specs.inner.Words.{found, leading, signing, zero_after, long_after};
ghost use Rattle.network_causes.specs.inner.Words.{begins_field, field_after_byte, begins_line, line_after_byte, none};

use file_io::place::{is_digit, next};

// How many were counted up to a byte, and whether the next byte is the first of a field or of a line.
#[derive(Drop)]
pub struct Counted {
    pub count: u64,
    pub fresh: bool,
}

// Was a number with 0 in front found before this byte, or is it found with it?
#[tactic(auto, unfolding(crate::specs::inner::Words::found))]
fn is_found(state: u8, byte: u8) -> bool
    ensures { result ≡ found state byte }
{
    (state == 4) | ((state == 3) & is_digit(byte))
}

// Is a byte a 0 that is first in its number?
#[tactic(auto, unfolding(crate::specs::inner::Words::leading))]
fn is_leading(state: u8, byte: u8) -> bool
    ensures { result ≡ leading state byte }
{
    (byte == b'0') & ((state == 1) | (state == 2))
}

// Is a byte a minus behind a space?
#[tactic(auto, unfolding(crate::specs::inner::Words::signing))]
fn is_minus(state: u8, byte: u8) -> bool
    ensures { result ≡ signing state byte }
{
    (byte == b'-') & (state == 1)
}

// Stays: the states are numbers as in the definition `zero_after` of specs/, which keeps its meaning.
// Where a number with 0 in front is looked for: 0 elsewhere, 1 after a space, 2 after a minus behind one, 3 after a 0 that is first, 4 found.
#[tactic(auto, unfolding(crate::specs::inner::Words::zero_after))]
fn zero_after(state: u8, byte: u8) -> u8
    ensures { result ≡ zero_after state byte }
{
    if is_found(state, byte) {
        return 4;
    }
    if byte == b' ' {
        return 1;
    }
    if is_leading(state, byte) {
        return 3;
    }
    if is_minus(state, byte) {
        return 2;
    }
    0
}

// Has a number a 0 in front?
pub fn has_zero(line: &[u8]) -> bool
    ensures { result ≡ eqb (over zero_after 0 line.now) 4 }
{
    let mut state: u8 = 0;
    for &byte in line {
        state = zero_after(state, byte);
    }
    state == 4
}

// How many digits stand up to a byte; more than ten are not counted.
#[tactic(auto, unfolding(crate::specs::inner::Words::long_after))]
fn long_after(digits: u64, byte: u8) -> u64
    ensures { result ≡ long_after digits byte }
{
    if 10 < digits {
        return digits;
    }
    if is_digit(byte) {
        return digits + 1;
    }
    0
}

// Has a number more than ten digits?
pub fn has_long(line: &[u8]) -> bool
    ensures { result ≡ ltb 10 (over long_after 0 line.now) }
{
    let mut digits: u64 = 0;
    for &byte in line {
        digits = long_after(digits, byte);
    }
    10 < digits
}

// Is a byte the first of a field?
#[tactic(auto, unfolding(crate::specs::inner::Words::begins_field))]
fn begins_field(fresh: bool, byte: u8) -> bool
    ensures { result ≡ begins_field fresh byte }
{
    fresh & !(byte == b' ')
}

// One more field where a byte is its first.
#[tactic(auto, unfolding(crate::specs::inner::Words::field_after_byte))]
fn field_after(c: Counted, byte: u8) -> Counted
    ensures { result ≡ field_after_byte c byte }
{
    if begins_field(c.fresh, byte) {
        return Counted {
            count: next(c.count),
            fresh: false,
        };
    }
    Counted {
        count: c.count,
        fresh: byte == b' ',
    }
}

// How many fields a line has, parted by spaces.
pub fn fields_of(line: &[u8]) -> u64
    ensures { result ≡ (over field_after_byte none line.now).count }
{
    let mut counted = Counted {
        count: 0,
        fresh: true,
    };
    for &byte in line {
        counted = field_after(counted, byte);
    }
    counted.count
}

// Is a byte the first of a line, and of this kind?
#[tactic(auto, unfolding(crate::specs::inner::Words::begins_line))]
fn begins_line(fresh: bool, kind: u8, byte: u8) -> bool
    ensures { result ≡ begins_line kind fresh byte }
{
    fresh & (byte == kind)
}

// One more line where its first byte is of this kind.
#[tactic(auto, unfolding(crate::specs::inner::Words::line_after_byte))]
fn line_after(c: Counted, kind: u8, byte: u8) -> Counted
    ensures { result ≡ line_after_byte kind c byte }
{
    if begins_line(c.fresh, kind, byte) {
        return Counted {
            count: next(c.count),
            fresh: byte == b'\n',
        };
    }
    Counted {
        count: c.count,
        fresh: byte == b'\n',
    }
}

// How many lines begin with a byte.
pub fn lines_of(bytes: &[u8], kind: u8) -> u64
    ensures { result ≡ (over (line_after_byte kind) none bytes.now).count }
{
    let mut counted = Counted {
        count: 0,
        fresh: true,
    };
    for &byte in bytes {
        counted = line_after(counted, kind, byte);
    }
    counted.count
}

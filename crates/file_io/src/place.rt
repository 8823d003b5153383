// Where in a file a byte stands: records and fields from 1, by the line ends and the commas before it.
ghost use Rattle.std.specs.Prelude.{◌≡◌, ◌&&◌, ltb, get_or, take};
ghost use Rattle.file_io.specs.inner.Places.{next_number, record_after, field_after, record_over, field_over, end_from, start_from, byte_back};

use crate::file::first;

// The number after n; the largest number has none, and stands for itself.
pub fn next(n: u64) -> u64
    ensures { result ≡ next_number n }
{
    if n == u64::MAX { n } else { n + 1 }
}

// A record, and a field in it, both from 1.
#[derive(Clone, Copy, Drop)]
struct Place {
    record: u64,
    field: u64,
}

impl Place {
    // Where a file begins.
    fn first() -> Place
        ensures record { result.record ≡ 1 }
        ensures field { result.field ≡ 1 }
    {
        Place {
            record: 1,
            field: 1,
        }
    }

    // The place after a byte that stands here.
    fn after(self, byte: u8) -> Place
        ensures record { result.record ≡ record_after self.record byte }
        ensures field { result.field ≡ field_after self.field byte }
    {
        match byte {
            b'\n' => Place {
                record: next(self.record),
                field: 1,
            },
            b',' => Place {
                record: self.record,
                field: next(self.field),
            },
            _ => self,
        }
    }

    // The place of an offset.
    fn at(bytes: &[u8], at: usize) -> Place
        ensures record { result.record ≡ record_over 1 (take at bytes.now) }
        ensures field { result.field ≡ field_over 1 (take at bytes.now) }
    {
        let before = first(bytes, at);
        let mut place = Place::first();
        for &byte in before {
            place = place.after(byte);
        }
        place
    }
}

// The record of an offset.
pub fn record_at(bytes: &[u8], at: usize) -> u64
    ensures { result ≡ record_over 1 (take at bytes.now) }
{
    Place::at(bytes, at).record
}

// The field of an offset in its record.
pub fn field_at(bytes: &[u8], at: usize) -> u64
    ensures { result ≡ field_over 1 (take at bytes.now) }
{
    Place::at(bytes, at).field
}

// The offset where a record ends: that of its CR, or the file's length.
pub fn record_end(bytes: &[u8], record: u64) -> usize
    ensures { result ≡ end_from «record» 0 1 bytes.now }
{
    let mut here = Place::first();
    for (i, &byte) in bytes.iter().enumerate() {
        if here.record == record {
            if byte == b'\r' {
                return i;
            }
        }
        here = here.after(byte);
    }
    bytes.len()
}

// The offset where a field of a record begins, or the file's length.
pub fn field_start(bytes: &[u8], record: u64, field: u64) -> usize
    ensures { result ≡ start_from «record» field 0 1 1 bytes.now }
{
    let mut here = Place::first();
    for (i, &byte) in bytes.iter().enumerate() {
        if here.record == record {
            if here.field == field {
                return i;
            }
        }
        here = here.after(byte);
    }
    bytes.len()
}

// The byte at an offset, or 0 where there is none.
pub fn byte_at(bytes: &[u8], at: usize) -> u8
    ensures { result ≡ get_or bytes.now at 0 }
{
    if at < bytes.len() { bytes[at] } else { 0 }
}

// The byte so many bytes before an offset, or 0 where there is none.
pub fn byte_before(bytes: &[u8], at: usize, back: usize) -> u8
    ensures { result ≡ byte_back bytes.now at back }
{
    if at < back {
        return 0;
    }
    byte_at(bytes, at - back)
}

// Is a byte a digit?
pub fn is_digit(b: u8) -> bool
    ensures { result ≡ (ltb 47 b && ltb b 58) }
{
    b.is_ascii_digit()
}

// What stands in a text.
ghost use Rattle.std.specs.Prelude.{◌≡◌, true, false, ◌||◌, eqb, length, take, drop};
ghost use Rattle.file_io.specs.inner.Over.{over, found_after};
ghost use Rattle.file_io.specs.inner.Places.{byte_back};

use crate::place::byte_before;

// The bytes after the first n; none where there are no more.
pub fn rest(s: &[u8], n: usize) -> &[u8]
    ensures { result.now ≡ drop n s.now }
{
    let size = s.len();
    if size < n {
        return &s[size..];
    }
    &s[n..]
}

// The last byte; 0 of no bytes.
pub fn last_of(s: &[u8]) -> u8
    ensures { result ≡ byte_back s.now (length s.now) 1 }
{
    byte_before(s, s.len(), 1)
}

// Does a text begin with these bytes?
pub fn starts(s: &[u8], word: &[u8]) -> bool
    ensures { (result ≡ true → take (length word.now) s.now ≡ word.now) ×
        (take (length word.now) s.now ≡ word.now → result ≡ true) }
{
    s.starts_with(word)
}

fn found_after(found: bool, wanted: u8, byte: u8) -> bool
    ensures { result ≡ found_after wanted found byte }
{
    found | (byte == wanted)
}

// Does a byte stand in a text?
pub fn has(s: &[u8], byte: u8) -> bool
    ensures { result ≡ over (found_after byte) false s.now }
{
    let mut found = false;
    for &b in s {
        found = found_after(found, byte, b);
    }
    found
}

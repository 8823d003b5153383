// The line of a place in a file, and marks below the place.
use file_io::file::first;
use file_io::message::{say, say_number};
use file_io::place::{field_start, next, record_at};
use file_io::shown::hex;
use file_io::text::rest;
use std::io;

// A byte for the eye: names for CR, LF and tab, base 16 for what is no sign of ASCII, all in angle quotes.
fn say_shown_byte(err: &impl Print, byte: u8) -> io::Result<()> {
    match byte {
        b' '..=b'~' => say(err, &[byte]),
        b'\t' => say(err, b"\xE2\x80\xB9TAB\xE2\x80\xBA"),
        b'\n' => say(err, b"\xE2\x80\xB9LF\xE2\x80\xBA"),
        b'\r' => say(err, b"\xE2\x80\xB9CR\xE2\x80\xBA"),
        _ => {
            say(err, b"\xE2\x80\xB9")?;
            say(err, &hex(byte))?;
            say(err, b"\xE2\x80\xBA")
        }
    }
}

// Below a byte: a mark for each sign that it is shown by.
fn say_below_byte(err: &impl Print, byte: u8, mark: &[u8]) -> io::Result<()> {
    say(err, mark)?;
    match byte {
        b' '..=b'~' => {}
        b'\t' => {
            say(err, mark)?;
            say(err, mark)?;
            say(err, mark)?;
            say(err, mark)?;
        }
        _ => {
            say(err, mark)?;
            say(err, mark)?;
            say(err, mark)?;
        }
    }
    Ok(())
}

fn say_shown(err: &impl Print, text: &[u8]) -> io::Result<()> {
    for &byte in text {
        say_shown_byte(err, byte)?;
    }
    Ok(())
}

fn say_below(err: &impl Print, text: &[u8], mark: &[u8]) -> io::Result<()> {
    for &byte in text {
        say_below_byte(err, byte, mark)?;
    }
    Ok(())
}

// A line's number, at the right of six places.
fn say_line_number(err: &impl Print, number: u64) -> io::Result<()> {
    if number < 10 {
        say(err, b"     ")?;
    } else if number < 100 {
        say(err, b"    ")?;
    } else if number < 1000 {
        say(err, b"   ")?;
    } else if number < 10_000 {
        say(err, b"  ")?;
    } else if number < 100_000 {
        say(err, b" ")?;
    }
    say_number(err, number)?;
    say(err, b": ")
}

// How many bytes of a line are not shown before a place: all but 48.
fn passed(before: &[u8]) -> usize {
    before.len().saturating_sub(48)
}

// The line, its part from low to high among it, with 48 bytes on each side of that at most.
fn say_line(
    err: &impl Print,
    number: u64,
    before: &[u8],
    marked: &[u8],
    after: &[u8],
) -> io::Result<()> {
    say_line_number(err, number)?;
    if 48 < before.len() {
        say(err, b"\xE2\x80\xA6")?;
    }
    say_shown(err, rest(before, passed(before)))?;
    if marked.len() == 0 {
        say(err, b"\xE2\x80\xB9end\xE2\x80\xBA")?;
    }
    say_shown(err, marked)?;
    say_shown(err, first(after, 48))?;
    if 48 < after.len() {
        say(err, b"\xE2\x80\xA6")?;
    }
    say(err, b"\n")
}

// The marks below it.
fn say_marks(err: &impl Print, number: u64, before: &[u8], marked: &[u8]) -> io::Result<()> {
    if number < 1_000_000 {
        say(err, b"        ")?;
    }
    if 48 < before.len() {
        say(err, b" ")?;
    }
    say_below(err, rest(before, passed(before)), b" ")?;
    if marked.len() == 0 {
        say(err, b"^^^^^")?;
    }
    say_below(err, marked, b"^")?;
    say(err, b"\n")
}

// Says the line of an offset, and marks the bytes from it to another.
pub fn say_spot(err: &impl Print, bytes: &[u8], low: usize, high: usize) -> io::Result<()> {
    let number = record_at(bytes, low);
    let line = first(bytes, field_start(bytes, next(number), 1));
    let start = field_start(bytes, number, 1);
    let before = rest(first(line, low), start);
    let marked = rest(first(line, high), low);
    let after = rest(line, high);
    say_line(err, number, before, marked, after)?;
    say_marks(err, number, before, marked)
}

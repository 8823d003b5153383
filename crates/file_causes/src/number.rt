// A sign within a number or before it: a tab, one that parts thousands, a decimal, a space, a plus, another minus.
use crate::spot::say_spot;
use file_io::file::first;
use file_io::message::{say, say_name};
use file_io::place::{byte_at, byte_before, is_digit};
use file_io::text::{rest, starts};
use std::io;

// Is the byte so many bytes before an end a digit?
fn digit_back(before: &[u8], back: usize) -> bool {
    is_digit(byte_before(before, before.len(), back))
}

// Do one to three digits stand before a sign, and exactly three after it?
fn parts_thousands(before: &[u8], after: &[u8]) -> bool {
    let many = digit_back(before, 2) & digit_back(before, 3) & digit_back(before, 4);
    let group = is_digit(byte_at(after, 0))
        & is_digit(byte_at(after, 1))
        & is_digit(byte_at(after, 2));
    digit_back(before, 1) & !many & group & !is_digit(byte_at(after, 3))
}

// How many bytes a space takes, 0 of other bytes: 160 is one by itself and after 194; the narrow and the thin one have three bytes.
fn space_width(text: &[u8]) -> usize {
    if (byte_at(text, 0) == b' ') | (byte_at(text, 0) == 160) {
        return 1;
    }
    if starts(text, b"\xC2\xA0") {
        return 2;
    }
    if starts(text, b"\xE2\x80\xAF") | starts(text, b"\xE2\x80\x89") {
        return 3;
    }
    0
}

// The same of a space or an apostrophe.
fn blank_width(text: &[u8]) -> usize {
    if byte_at(text, 0) == b'\'' {
        return 1;
    }
    if starts(text, b"\xE2\x80\x99") {
        return 3;
    }
    space_width(text)
}

// A point or a comma between digits.
fn said_mark(err: &impl Print, mark: u8, before: &[u8], after: &[u8]) -> io::Result<bool> {
    if !parts_thousands(before, after) {
        return Ok(false);
    }
    match mark {
        b'.' => say(
            err,
            b"a point, of a decimal point or between thousands; numbers are whole and have digits alone",
        )?,
        b',' => say(
            err,
            b"a comma within quotes, a decimal comma or one between thousands; numbers are whole and have digits alone",
        )?,
        _ => return Ok(false),
    }
    Ok(true)
}

// Says what is wrong with the number at an offset; false where the signs beside it do not tell it.
pub fn said_number(err: &impl Print, bytes: &[u8], at: usize) -> io::Result<bool> {
    let before = first(bytes, at);
    let text = rest(bytes, at);
    if byte_at(text, 0) == b'\t' {
        say(
            err,
            b"a tab; fields are parted by commas (`yadvorkhul import` reads such files)",
        )?;
        return Ok(true);
    }
    let width = blank_width(text);
    if 0 < width {
        if parts_thousands(before, rest(text, width)) {
            say(
                err,
                b"a sign that parts thousands; a number has digits alone (`yadvorkhul import` reads such files)",
            )?;
            return Ok(true);
        }
    }
    said_mark(err, byte_at(text, 0), before, rest(text, 1))
}

// Says that a space, a minus that is not the plain one, or a dash stands first; false where none does.
pub fn said_sign(err: &impl Print, text: &[u8]) -> io::Result<bool> {
    if 0 < space_width(text) {
        say(err, b"a space; a number has digits alone")?;
        return Ok(true);
    }
    if starts(text, b"\xE2\x88\x92") | starts(text, b"\xE2\x80\x93") {
        say(
            err,
            b"a minus or a dash that is not the plain one (byte 45), which can stand only before a unit cost",
        )?;
        return Ok(true);
    }
    Ok(false)
}

// Does a comma that parts thousands stand at an offset?
fn parts_at(bytes: &[u8], at: usize) -> bool {
    (byte_at(bytes, at) == b',') & parts_thousands(first(bytes, at), rest(rest(bytes, at), 1))
}

// How many bytes stand before the first comma that parts thousands; all where there is none.
fn before_comma(text: &[u8]) -> usize {
    (0..text.len())
        .find(|&i| parts_at(text, i))
        .unwrap_or(text.len())
}

// How many digits stand before an end, three at most.
fn digits_back(before: &[u8]) -> usize {
    if !digit_back(before, 2) {
        return 1;
    }
    if digit_back(before, 3) {
        return 3;
    }
    2
}

// Where those digits begin.
fn digits_from(before: &[u8]) -> usize {
    before.len().saturating_sub(digits_back(before))
}

// Says some words and the first number of a text whose thousands a comma parts, as 1,234; false where there is none.
pub fn said_parted(err: &impl Print, words: &[u8], text: &[u8]) -> io::Result<bool> {
    let at = before_comma(text);
    if text.len() <= at {
        return Ok(false);
    }
    let before = first(text, at);
    say(err, words)?;
    say_name(err, rest(before, digits_from(before)))?;
    say_name(err, first(rest(text, at), 4))?;
    say(
        err,
        b", between thousands or of a decimal; a number has digits alone",
    )?;
    Ok(true)
}

// Marks that number in its line, where the text begins at an offset of a file.
pub fn say_parted_spot(err: &impl Print, bytes: &[u8], low: usize, text: &[u8]) -> io::Result<()> {
    let at = before_comma(text);
    let from = digits_from(first(text, at));
    say_spot(
        err,
        bytes,
        low.saturating_add(from),
        low.saturating_add(at.saturating_add(4)),
    )
}

// What a file is instead of a file of its kind.
use csv_table::table::tariff_stands;
use file_io::file::first;
use file_io::message::say;
use file_io::place::{field_at, next, record_at, record_end};
use file_io::text::{has, last_of, rest, starts};
use std::io;

// How many bytes are 0 among every other of the first 64, from the first or the second on.
fn zeros_of(bytes: &[u8], from: usize) -> u64 {
    let text = rest(first(bytes, 64), from);
    text.iter().step_by(2).filter(|&&b| b == 0).count() as u64
}

// Are so many of every other byte 0, and so many of those between, that it is UTF-16?
fn are_wide(these: u64, between: u64, size: usize) -> bool {
    (1 < these) & (between == 0) & (size as u64 / 4 <= these)
}

// Is every other byte 0? Half of them at least, and none of those between.
fn is_wide(bytes: &[u8]) -> bool {
    let size = first(bytes, 64).len();
    let even = zeros_of(bytes, 0);
    let odd = zeros_of(bytes, 1);
    are_wide(even, odd, size) | are_wide(odd, even, size)
}

// A workbook.
fn said_book(err: &impl Print, words: &[u8], bytes: &[u8]) -> io::Result<bool> {
    if starts(bytes, b"PK\x03\x04") {
        say(err, words)?;
        say(
            err,
            b"the beginning of a workbook (PK), whatever the file is called; `yadvorkhul import` reads such files",
        )?;
        return Ok(true);
    }
    if starts(bytes, b"\xD0\xCF\x11\xE0") {
        say(err, words)?;
        say(
            err,
            b"the beginning of an old workbook (.xls), whatever the file is called; save it as .xlsx, which `yadvorkhul import` reads",
        )?;
        return Ok(true);
    }
    Ok(false)
}

// Says some words and what a file is by its first bytes, a workbook or UTF-16; false where it is neither.
pub fn said_other(err: &impl Print, words: &[u8], bytes: &[u8]) -> io::Result<bool> {
    if said_book(err, words, bytes)? {
        return Ok(true);
    }
    if starts(bytes, b"\xFF\xFE") | starts(bytes, b"\xFE\xFF") {
        say(err, words)?;
        say(
            err,
            b"a byte order mark of UTF-16; save the file as plain text, or: `yadvorkhul import` reads such files",
        )?;
        return Ok(true);
    }
    if is_wide(bytes) {
        say(err, words)?;
        say(
            err,
            b"text in UTF-16 (every other byte is 0); save the file as plain text, or: `yadvorkhul import` reads such files",
        )?;
        return Ok(true);
    }
    Ok(false)
}

// Is a file that should be a tariff, and was read to its end, a single column?
fn is_column(bytes: &[u8], at: usize) -> bool {
    (bytes.len() <= at) & (0 < bytes.len()) & !has(bytes, b',')
}

// The other file of the pair; false where it is not.
fn said_swapped(err: &impl Print, tariff: bool, bytes: &[u8], at: usize) -> io::Result<bool> {
    if tariff {
        if is_column(bytes, at) {
            say(
                err,
                b"the end of a single column, which is a production table; perhaps the two files are swapped",
            )?;
            return Ok(true);
        }
        return Ok(false);
    }
    if tariff_stands(bytes) {
        say(
            err,
            b"a tariff, with several fields in each record; perhaps the two files are swapped",
        )?;
        return Ok(true);
    }
    Ok(false)
}

// Does a byte end a line?
fn ends_line(byte: u8) -> bool {
    (byte == b'\n') | (byte == b'\r')
}

// The length without line ends at the end.
fn text_end(bytes: &[u8]) -> usize {
    bytes
        .iter()
        .rposition(|&b| !ends_line(b))
        .map_or(0, |last| last + 1)
}

// Does the last record of a tariff lack only the comma behind the demands?
fn lacks_comma(bytes: &[u8], text: &[u8]) -> bool {
    let end = text.len();
    let fields = field_at(bytes, record_end(bytes, 1));
    let fewer = next(field_at(text, end)) == fields;
    (2 < record_at(text, end)) & fewer & (last_of(text) != b',')
}

// Says so of a tariff that was read to its end, or to a blank line there.
fn said_last_comma(err: &impl Print, bytes: &[u8], at: usize) -> io::Result<bool> {
    let text = first(bytes, text_end(bytes));
    if (at <= text.len()) & (at < bytes.len()) {
        return Ok(false);
    }
    if !lacks_comma(bytes, text) {
        return Ok(false);
    }
    if bytes.len() <= at {
        say(
            err,
            b"the end of the file where the demands lack their last comma: that record ends in an empty field",
        )?;
        return Ok(true);
    }
    say(
        err,
        b"a blank line after demands that lack their last comma: that record ends in an empty field",
    )?;
    Ok(true)
}

// Says what the file is, by the place of its refusal; false where the bytes as a whole do not tell it.
pub fn said_whole(err: &impl Print, tariff: bool, bytes: &[u8], at: usize) -> io::Result<bool> {
    if tariff {
        if said_last_comma(err, bytes, at)? {
            return Ok(true);
        }
    }
    if said_other(err, b"", bytes)? {
        return Ok(true);
    }
    said_swapped(err, tariff, bytes, at)
}

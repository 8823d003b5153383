// Numbers that a comma parts, and the usual cause of refusal 22: a record that has too many fields or too few.
use crate::number::{said_parted, say_parted_spot};
use crate::spot::say_spot;
use crate::whole::said_whole;
use file_io::file::first;
use file_io::message::{say, say_name};
use file_io::place::{byte_at, field_at, field_start, is_digit, record_at, record_end};
use file_io::text::{last_of, rest};
use std::io;

// The bytes of a record, without its line end.
fn record_text(bytes: &[u8], record: u64) -> &[u8] {
    rest(
        first(bytes, record_end(bytes, record)),
        field_start(bytes, record, 1),
    )
}

// How many bytes stand before the first comma; all where there is none.
fn head_length(text: &[u8]) -> usize {
    text.iter().position(|&b| b == b',').unwrap_or(text.len())
}

// Are all bytes digits?
fn are_digits(text: &[u8]) -> bool {
    text.iter().all(|&b| is_digit(b))
}

// Is it one digit or two after the comma, and nothing else?
fn is_decimal(after: &[u8]) -> bool {
    let many = (after.len() == 1) | (after.len() == 2);
    many & are_digits(after)
}

// Are groups of three digits all that stands after a comma?
fn are_groups(after: &[u8]) -> bool {
    for (i, &byte) in after.iter().enumerate() {
        let stands = if i % 4 == 3 {
            byte == b','
        } else {
            is_digit(byte)
        };
        if !stands {
            return false;
        }
    }
    after.len() % 4 == 3
}

// What is left of a text without its first comma and what stands before it.
fn after_comma(text: &[u8]) -> &[u8] {
    rest(rest(text, head_length(text)), 1)
}

// Is a record of a production file a number of any digits, a comma and a decimal?
fn has_decimal(text: &[u8]) -> bool {
    let length = head_length(text);
    (0 < length) & are_digits(first(text, length)) & is_decimal(after_comma(text))
}

// Is it a number whose groups of three digits commas part?
fn has_groups(text: &[u8]) -> bool {
    let length = head_length(text);
    (0 < length) & (length < 4) & are_digits(first(text, length)) & are_groups(after_comma(text))
}

// Says that an entry has a comma in it; false where the record is no such entry.
pub fn said_entry(err: &impl Print, bytes: &[u8], record: u64) -> io::Result<bool> {
    let text = record_text(bytes, record);
    if has_decimal(text) {
        say(err, b"a decimal comma in ")?;
        say_name(err, text)?;
        say(err, b"; numbers are whole")?;
        return Ok(true);
    }
    if has_groups(text) {
        say(err, b"a comma in ")?;
        say_name(err, text)?;
        say(
            err,
            b", between thousands or of a decimal; a number has digits alone",
        )?;
        return Ok(true);
    }
    Ok(false)
}

// A text without a minus in front.
fn unsigned(text: &[u8]) -> &[u8] {
    if byte_at(text, 0) == b'-' {
        return rest(text, 1);
    }
    text
}

// Is it digits, perhaps after a minus, and a comma behind them?
fn is_head(text: &[u8]) -> bool {
    let digits = first(text, head_length(text));
    (last_of(text) == b',') & is_digit(last_of(digits)) & are_digits(unsigned(digits))
}

// Is it two digits or three?
fn is_tail(text: &[u8]) -> bool {
    let many = (text.len() == 2) | (text.len() == 3);
    many & are_digits(text)
}

// The field before an offset that begins a field, with the comma.
fn field_before(bytes: &[u8], at: usize) -> &[u8] {
    let field = field_at(bytes, at);
    if field < 2 {
        return first(bytes, 0);
    }
    rest(
        first(bytes, at),
        field_start(bytes, record_at(bytes, at), field - 1),
    )
}

// Says that a number has 0 in front; two or three digits after a comma may be the end of a number.
pub fn say_in_front(err: &impl Print, bytes: &[u8], at: usize) -> io::Result<()> {
    let head = field_before(bytes, at);
    let text = rest(first(bytes, record_end(bytes, record_at(bytes, at))), at);
    let tail = first(text, head_length(text));
    say(err, b"a number with 0 in front, perhaps an item code")?;
    if is_head(head) & is_tail(tail) {
        say(err, b", or the end of ")?;
        say_name(err, head)?;
        say_name(err, tail)?;
        say(err, b" with a comma in it; a number has digits alone")?;
    }
    Ok(())
}

// The cause in a record of a tariff that has too few fields, by the first record.
fn say_fewer(err: &impl Print, text: &[u8]) -> io::Result<()> {
    if said_parted(
        err,
        b"the end of a record that has too few fields, or record 1 has one too many, perhaps by a comma in ",
        text,
    )? {
        return Ok(());
    }
    say(err, b"the end of a record that has too few fields")
}

// A record that has a field too many; true where a number with a comma in it is named.
fn said_more(err: &impl Print, tariff: bool, text: &[u8]) -> io::Result<bool> {
    if tariff {
        if said_parted(err, b"a field too many, perhaps by a comma in ", text)? {
            return Ok(true);
        }
    }
    say(
        err,
        b"a field too many, perhaps after a decimal comma or one between thousands; numbers are whole and have digits alone",
    )?;
    Ok(false)
}

// Says what stands at the place of refusal 22; true where it is a number of the record, with a comma in it.
pub fn said_fields_cause(
    err: &impl Print,
    tariff: bool,
    bytes: &[u8],
    record: u64,
    more: bool,
) -> io::Result<bool> {
    if said_whole(err, tariff, bytes, 0)? {
        return Ok(false);
    }
    if !tariff {
        if said_entry(err, bytes, record)? {
            return Ok(true);
        }
    }
    if more {
        return said_more(err, tariff, record_text(bytes, record));
    }
    say_fewer(err, record_text(bytes, 1))?;
    Ok(false)
}

// Marks that number.
pub fn say_fields_spot(
    err: &impl Print,
    tariff: bool,
    bytes: &[u8],
    record: u64,
) -> io::Result<()> {
    let low = field_start(bytes, record, 1);
    if tariff {
        return say_parted_spot(err, bytes, low, record_text(bytes, record));
    }
    say_spot(err, bytes, low, record_end(bytes, record))
}

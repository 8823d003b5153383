// The sentences of refusals 20 to 22.
use crate::byte::say_cause;
use crate::fields::{said_fields_cause, say_fields_spot};
use crate::spot::say_spot;
use crate::whole::said_other;
use file_io::message::{say, say_count, say_name, say_with};
use file_io::place::{field_at, field_start, next, record_at, record_end};
use std::io;

// Refusal 21: a byte by its record, field and offset, or the end of the file.
fn explain_byte(err: &impl Print, place: u64, tariff: bool, bytes: &[u8]) -> io::Result<()> {
    let at = place as usize;
    if bytes.len() <= at {
        say(err, b" ends too soon: ")?;
    } else {
        say(err, b" has a byte that cannot stand there: ")?;
    }
    say_with(err, b"record ", record_at(bytes, at), b", field ")?;
    say_with(err, b"", field_at(bytes, at), b", offset ")?;
    say_with(err, b"", place, b" counted from 0. Here stands ")?;
    say_cause(err, tariff, bytes, at)?;
    say(
        err,
        b". Look at the marked byte. A number has 1 to 10 digits, the first not 0, or is a single 0; commas part the fields, and each record ends in CR LF.\n",
    )?;
    say_spot(err, bytes, at, at.saturating_add(1))
}

// The place of refusal 22: the first field that a record has too many, else its end.
fn say_odd_spot(
    err: &impl Print,
    record: u64,
    bytes: &[u8],
    more: bool,
    wanted: u64,
) -> io::Result<()> {
    let end = record_end(bytes, record);
    if more {
        let low = field_start(bytes, record, next(wanted));
        return say_spot(err, bytes, low, end.max(low.saturating_add(1)));
    }
    say_spot(err, bytes, end, end.saturating_add(1))
}

// Refusal 22: a record by its count of fields.
fn explain_record(
    err: &impl Print,
    record: u64,
    tariff: bool,
    bytes: &[u8],
    wanted: u64,
) -> io::Result<()> {
    let has = field_at(bytes, record_end(bytes, record));
    say(err, b" has ")?;
    say_count(err, has, b" field", b" fields")?;
    if tariff {
        say(err, b"; record 1 has ")?;
    } else {
        say(err, b"; each has ")?;
    }
    say_with(err, b"", wanted, b". Here stands ")?;
    let named = said_fields_cause(err, tariff, bytes, record, wanted < has)?;
    say(
        err,
        b". Look for a missing or doubled comma, or a decimal comma.\n",
    )?;
    if named {
        return say_fields_spot(err, tariff, bytes, record);
    }
    say_odd_spot(err, record, bytes, wanted < has, wanted)
}

// Refusal 20. The first bytes of a file that is too long may tell what it is.
fn explain_unread(err: &impl Print, bytes: &[u8]) -> io::Result<()> {
    say(
        err,
        b" cannot be opened and read, or is longer than 65,536 bytes.",
    )?;
    if said_other(err, b" Here stands ", bytes)? {
        say(err, b".")?;
    }
    say(err, b" Look at its path and size.\n")
}

// The refusals of a file: whether it is a tariff, what it is called, its path and its bytes, and how many fields each of its records should have.
pub fn explain_file(
    err: &impl Print,
    number: u64,
    place: u64,
    tariff: bool,
    file: &[u8],
    path: &[u8],
    bytes: &[u8],
    wanted: u64,
) -> io::Result<()> {
    if number == 22 {
        say_with(err, b"record ", place, b" of ")?;
    }
    say(err, file)?;
    say_name(err, path)?;
    match number {
        20 => explain_unread(err, bytes),
        21 => explain_byte(err, place, tariff, bytes),
        _ => explain_record(err, place, tariff, bytes, wanted),
    }
}

// The usual cause of refusal 21, where the byte at its place and those beside it tell it.
use crate::fields::{said_entry, say_in_front};
use crate::number::{said_number, said_sign};
use crate::whole::said_whole;
use file_io::file::first;
use file_io::message::{say, say_with};
use file_io::place::{
    byte_at, byte_before, field_at, field_start, is_digit, record_at, record_end,
};
use file_io::shown::hex;
use file_io::text::{has, rest, starts};
use std::io;

// A letter of the Latin alphabet, or a byte of a letter that is none of these.
fn is_letter(b: u8) -> bool {
    b.is_ascii_alphabetic() | !b.is_ascii()
}

// Whether a number can begin at an offset: at the start of the file or of a record, after a comma, a minus, or a quote that opens a field.
fn begins(bytes: &[u8], at: usize) -> bool {
    let back = byte_before(bytes, at, 1);
    match back {
        0 => at == 0,
        b'\n' | b',' | b'-' => true,
        b'"' => !is_digit(byte_before(bytes, at, 2)),
        _ => false,
    }
}

// Does a 0 that a number of several digits begins with stand there?
fn leads(bytes: &[u8], at: usize) -> bool {
    if at < bytes.len() {
        return (bytes[at] == b'0') & is_digit(byte_at(bytes, at + 1)) & begins(bytes, at);
    }
    false
}

// Is it after the record of the demands, which alone ends in a comma?
fn is_after_demands(bytes: &[u8], at: usize) -> bool {
    (byte_before(bytes, at, 1) == b'\n') & (byte_before(bytes, at, 3) == b',')
}

// Does a letter stand in a text?
fn has_letter(text: &[u8]) -> bool {
    text.iter().any(|&b| is_letter(b))
}

// Is it in the first record, and has that a letter?
fn in_header(bytes: &[u8], at: usize) -> bool {
    (record_at(bytes, at) == 1) & has_letter(first(bytes, record_end(bytes, 1)))
}

// Is a field empty that ends with this byte? A quote ends it after another.
fn is_empty(bytes: &[u8], at: usize) -> bool {
    let back = byte_before(bytes, at, 1);
    if byte_at(bytes, at) == b'"' {
        return back == b'"';
    }
    (at == 0) | (back == b',') | (back == b'\n')
}

// The bytes of a record before an offset, from a field on.
fn from_field(bytes: &[u8], at: usize, field: u64) -> &[u8] {
    rest(
        first(bytes, at),
        field_start(bytes, record_at(bytes, at), field),
    )
}

// Does the record of a CR end in the empty field of the demands though it has a minus?
fn is_signed_end(bytes: &[u8], at: usize) -> bool {
    let end = (byte_at(bytes, at) == b'\r') & (byte_before(bytes, at, 1) == b',');
    end & has(from_field(bytes, at, 1), b'-')
}

// Does a CR end a number with a minus, bare or in quotes?
fn is_signed_last(bytes: &[u8], at: usize) -> bool {
    let text = from_field(bytes, at, field_at(bytes, at));
    let signed = starts(text, b"-") | starts(text, b"\"-");
    (byte_at(bytes, at) == b'\r') & signed
}

// A record that a minus makes one of unit costs, at its end.
fn said_minus(err: &impl Print, bytes: &[u8], at: usize) -> io::Result<bool> {
    if is_signed_end(bytes, at) {
        say(
            err,
            b"an empty last field, as the demands have, in a record with a minus; it can stand only before a unit cost",
        )?;
        return Ok(true);
    }
    if is_signed_last(bytes, at) {
        say(
            err,
            b"the end of a record whose last number has a minus; it can stand only before a unit cost",
        )?;
        return Ok(true);
    }
    Ok(false)
}

// Says what an empty field is.
fn say_empty(err: &impl Print, bytes: &[u8], at: usize) -> io::Result<()> {
    if in_header(bytes, at) {
        return say(
            err,
            b"an empty field, perhaps of a header line; the files have none (`yadvorkhul import` reads such files)",
        );
    }
    if (byte_at(bytes, at) == b'\r') & (byte_before(bytes, at, 1) != b',') {
        return say(err, b"a blank line; the files have none");
    }
    say(
        err,
        b"an empty field; only the last field of the demands is empty",
    )
}

// A comma, CR or quote: after a digit or a quote a comma is part of a number, at the start of a field they leave it empty.
fn said_empty(err: &impl Print, bytes: &[u8], at: usize) -> io::Result<bool> {
    let back = byte_before(bytes, at, 1);
    if (byte_at(bytes, at) == b',') & (is_digit(back) | (back == b'"')) {
        say(err, b"a decimal comma; numbers are whole")?;
        return Ok(true);
    }
    if said_minus(err, bytes, at)? {
        return Ok(true);
    }
    if is_empty(bytes, at) {
        say_empty(err, bytes, at)?;
        return Ok(true);
    }
    Ok(false)
}

// A sign before a number, or a digit too many.
fn said_rest(err: &impl Print, bytes: &[u8], at: usize, byte: u8) -> io::Result<bool> {
    match byte {
        b'-' => say(err, b"a minus; it can stand only before a unit cost")?,
        b'+' => say(err, b"a plus; a number has digits alone")?,
        b'0'..=b'9' => {
            if !is_digit(byte_before(bytes, at, 1)) {
                return Ok(false);
            }
            say(err, b"a number of more than ten digits")?;
        }
        _ => return Ok(false),
    }
    Ok(true)
}

// A byte that is told by what it is alone.
fn said_alone(err: &impl Print, bytes: &[u8], at: usize, byte: u8) -> io::Result<bool> {
    if said_sign(err, rest(bytes, at))? {
        return Ok(true);
    }
    if is_letter(byte) & (record_at(bytes, at) == 1) {
        say(
            err,
            b"a letter, perhaps of a header line; the files have none (`yadvorkhul import` reads such files)",
        )?;
        return Ok(true);
    }
    said_rest(err, bytes, at, byte)
}

// A byte that parts records, fields or a number.
fn said_parting(err: &impl Print, bytes: &[u8], at: usize, byte: u8) -> io::Result<bool> {
    match byte {
        b'\n' => say(
            err,
            b"a line that ends in LF without CR; records end in CR LF (`yadvorkhul import` reads such files)",
        )?,
        b';' => say(
            err,
            b"a semicolon; fields are parted by commas (`yadvorkhul import` reads such files)",
        )?,
        b'.' => say(err, b"a decimal point; numbers are whole")?,
        b'\r' | b'"' | b',' => return said_empty(err, bytes, at),
        _ => return said_alone(err, bytes, at, byte),
    }
    Ok(true)
}

// Is it a 0 after a minus?
fn is_signed_zero(bytes: &[u8], at: usize) -> bool {
    (byte_at(bytes, at) == b'0') & (byte_before(bytes, at, 1) == b'-')
}

// A 0 that begins a number, or follows a minus.
fn said_zero(err: &impl Print, bytes: &[u8], at: usize) -> io::Result<bool> {
    if leads(bytes, at) {
        say_in_front(err, bytes, at)?;
        return Ok(true);
    }
    if is_signed_zero(bytes, at) {
        say(err, b"a 0 after a minus; 0 has none")?;
        return Ok(true);
    }
    Ok(false)
}

// A place that tells the cause by itself: after the demands, before a number, at the start of the file.
fn said_place(err: &impl Print, bytes: &[u8], at: usize) -> io::Result<bool> {
    if is_after_demands(bytes, at) {
        say(
            err,
            b"more after the record of the demands, which is the last: it alone has an empty last field",
        )?;
        return Ok(true);
    }
    if said_zero(err, bytes, at)? {
        return Ok(true);
    }
    if (at == 0) & starts(bytes, b"\xEF\xBB\xBF") {
        say(
            err,
            b"a byte order mark; save the file as plain text without one (`yadvorkhul import` reads such files)",
        )?;
        return Ok(true);
    }
    Ok(false)
}

// The byte itself, where nothing tells more.
fn say_byte(err: &impl Print, byte: u8) -> io::Result<()> {
    match byte {
        0 => say(err, b"NUL")?,
        b'\r' => say(err, b"CR")?,
        b'!'..=b'~' => {
            let text = [byte];
            say(err, &text)?;
        }
        _ => {
            say_with(err, b"byte ", byte as u64, b" (hexadecimal ")?;
            say(err, &hex(byte))?;
            return say(err, b")");
        }
    }
    say_with(err, b" (byte ", byte as u64, b")")
}

// A number with 0 in front in a production file may be the end of one with a comma: 99,00.
fn said_comma(err: &impl Print, tariff: bool, bytes: &[u8], at: usize) -> io::Result<bool> {
    if tariff {
        return Ok(false);
    }
    if byte_at(bytes, at) != b'0' {
        return Ok(false);
    }
    said_entry(err, bytes, record_at(bytes, at))
}

// A CR that no LF follows, or the end of the file.
fn said_end(err: &impl Print, bytes: &[u8], at: usize) -> io::Result<bool> {
    if (byte_before(bytes, at, 1) == b'\r') & (byte_at(bytes, at) != b'\n') {
        say(
            err,
            b"a line that ends in CR without LF; records end in CR LF (`yadvorkhul import` reads such files)",
        )?;
        return Ok(true);
    }
    if bytes.len() <= at {
        say(
            err,
            b"the end of the file; a tariff ends in the record of the demands and its empty last field, a production table in an entry",
        )?;
        return Ok(true);
    }
    Ok(false)
}

// Says what stands at the place of refusal 21, of a tariff or a production file.
pub fn say_cause(err: &impl Print, tariff: bool, bytes: &[u8], at: usize) -> io::Result<()> {
    if said_whole(err, tariff, bytes, at)? || said_end(err, bytes, at)? {
        return Ok(());
    }
    let byte = byte_at(bytes, at);
    if said_comma(err, tariff, bytes, at)? {
        return Ok(());
    }
    if said_number(err, bytes, at)? || said_place(err, bytes, at)? {
        return Ok(());
    }
    if !said_parting(err, bytes, at, byte)? {
        say_byte(err, byte)?;
    }
    Ok(())
}

// The usual cause of refusal 29, where the bytes of the line tell it. The Python package has the same causes in the same words (dimacs.py).
use crate::limits::say_said;
use crate::words::{fields_of, has_long, has_zero, lines_of};
use dimacs::form::line_end;
use dimacs::line::read_line;
use file_io::file::first;
use file_io::message::{say, say_with};
use file_io::place::field_start;
use file_io::text::{has, last_of, rest, starts};
use std::io;

// The file ends before a line that is missing.
fn say_missing(err: &impl Print, before: &[u8]) -> io::Result<()> {
    if lines_of(before, b'p') == 0 {
        return say(err, b"the end of the file before the p line");
    }
    say_with(
        err,
        b"the end of the file after ",
        lines_of(before, b'a'),
        b" of ",
    )?;
    say_said(err, before)?;
    say(err, b" a lines")
}

// A line that is one by itself, and may not stand after those before it.
fn say_order(err: &impl Print, kind: u8, before: &[u8]) -> io::Result<()> {
    if kind == b'p' {
        return say(err, b"a second p line");
    }
    if lines_of(before, b'p') == 0 {
        return say(err, b"a line before the p line");
    }
    if kind == b'n' {
        return say(err, b"an n line after the first a line");
    }
    say(err, b"an a line more than the p line says")
}

// What a line of a kind looks like, and how many fields it has.
fn say_shape(err: &impl Print, kind: u8) -> io::Result<()> {
    match kind {
        b'p' => say(err, b"p min NODES ARCS"),
        b'n' => say(err, b"n NODE SUPPLY"),
        _ => say(err, b"a START END 0 CEILING COST"),
    }
}

fn wanted(kind: u8) -> u64 {
    match kind {
        b'p' => 4,
        b'n' => 3,
        _ => 6,
    }
}

// Another count of fields, a minus, or another field.
fn say_fields(err: &impl Print, kind: u8, line: &[u8]) -> io::Result<()> {
    if fields_of(line) != wanted(kind) {
        say(err, b"another count of fields than in ")?;
        return say_shape(err, kind);
    }
    if has(line, b'-') {
        return say(err, b"a minus; it can stand only before a supply or a cost");
    }
    say(err, b"a field that is not as in ")?;
    say_shape(err, kind)
}

// A number that is none, by its digits.
fn say_number_cause(err: &impl Print, kind: u8, line: &[u8]) -> io::Result<()> {
    if has_zero(line) {
        return say(err, b"a number with 0 in front");
    }
    if has_long(line) {
        return say(err, b"a number of more than ten digits");
    }
    if has(line, b'.') | has(line, b',') {
        return say(err, b"a fraction; numbers are whole");
    }
    say_fields(err, kind, line)
}

// A line that begins as one does.
fn say_kind(err: &impl Print, kind: u8, line: &[u8], before: &[u8]) -> io::Result<()> {
    if read_line(line).is_some() {
        return say_order(err, kind, before);
    }
    if starts(line, b"p max") {
        return say(err, b"p max; networks are p min");
    }
    say_number_cause(err, kind, line)
}

// A line that begins as none does.
fn say_other(err: &impl Print, line: &[u8]) -> io::Result<()> {
    if starts(line, b"\xEF\xBB\xBF") {
        return say(
            err,
            b"a byte order mark; save the file as plain text without one",
        );
    }
    if starts(line, b"PK\x03\x04") {
        return say(
            err,
            b"the beginning of a workbook (PK), whatever the file is called; a network is a text file",
        );
    }
    say(err, b"a line that begins with none of c, p, n and a")
}

// A line that ends in LF: CR, tab, spaces at an end, then its first byte.
fn say_whole(err: &impl Print, line: &[u8], before: &[u8]) -> io::Result<()> {
    if line.len() == 0 {
        return say(err, b"a blank line");
    }
    if last_of(line) == b'\r' {
        return say(err, b"a line that ends in CR LF; lines end in LF alone");
    }
    if has(line, b'\t') {
        return say(err, b"a tab; fields are parted by spaces");
    }
    if (line[0] == b' ') | (last_of(line) == b' ') {
        return say(err, b"a space at an end of the line");
    }
    match line[0] {
        b'p' | b'n' | b'a' => say_kind(err, line[0], line, before),
        _ => say_other(err, line),
    }
}

// Says the cause of refusal 29 at a line.
pub fn say_line_cause(err: &impl Print, bytes: &[u8], number: u64) -> io::Result<()> {
    let at = field_start(bytes, number, 1);
    let before = first(bytes, at);
    let after = rest(bytes, at);
    let length = line_end(after, 0);
    if length < after.len() {
        return say_whole(err, first(after, length), before);
    }
    if 0 < length {
        return say(err, b"a last line without LF");
    }
    say_missing(err, before)
}

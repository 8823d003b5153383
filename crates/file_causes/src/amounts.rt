// Sentences that name counts and sums of files. The proved reader found these files to be of the form; what is counted here decides nothing.
use crate::spot::say_spot;
use file_io::file::first;
use file_io::message::{say, say_count, say_grouped, say_name, say_with};
use file_io::place::{field_start, is_digit, next, record_at};
use file_io::text::{last_of, rest};
use std::io;

// The bytes of a field up to its comma or line end.
fn field_length(text: &[u8]) -> usize {
    text.iter()
        .position(|&b| matches!(b, b'\n' | b'\r' | b','))
        .unwrap_or(text.len())
}

// The bytes of a field, by its record and its place in it.
fn field_text(bytes: &[u8], record: u64, field: u64) -> &[u8] {
    let text = rest(bytes, field_start(bytes, record, field));
    first(text, field_length(text))
}

// A number with one byte more of its text; none has more than ten digits.
fn with_byte(number: u64, byte: u8) -> u64 {
    if is_digit(byte) {
        if number < 1_000_000_000 {
            return number * 10 + u64::from(byte - b'0');
        }
    }
    number
}

// The number that a field holds.
fn number_at(bytes: &[u8], record: u64, field: u64) -> u64 {
    let text = field_text(bytes, record, field);
    text.iter().fold(0, |number, &b| with_byte(number, b))
}

// The sum of a field over the records from one to before another.
fn sum_down(bytes: &[u8], from: u64, to: u64, field: u64) -> u64 {
    let mut sum: u64 = 0;
    for i in from..to {
        sum = sum.saturating_add(number_at(bytes, i, field));
    }
    sum
}

// The sum of the fields of a record before one.
fn sum_across(bytes: &[u8], record: u64, to: u64) -> u64 {
    let mut sum: u64 = 0;
    for i in 1..to {
        sum = sum.saturating_add(number_at(bytes, record, i));
    }
    sum
}

// How many records there are.
fn records_of(bytes: &[u8]) -> u64 {
    let records = record_at(bytes, bytes.len());
    if last_of(bytes) == b'\n' {
        return records.saturating_sub(1);
    }
    records
}

// The line of a field, the whole field marked.
pub fn say_field(err: &impl Print, bytes: &[u8], record: u64, field: u64) -> io::Result<()> {
    let low = field_start(bytes, record, field);
    let length = field_text(bytes, record, field).len();
    if usize::MAX - low < length {
        return Ok(());
    }
    say_spot(err, bytes, low, low + length)
}

// Refusal 6: how many entries a file has, and how many it should by the supply of plant 1 in a tariff of n terminals.
pub fn say_length(
    err: &impl Print,
    file: &[u8],
    path: &[u8],
    table: &[u8],
    tariff: &[u8],
    n: u64,
) -> io::Result<()> {
    say(err, file)?;
    say_name(err, path)?;
    say(err, b" has ")?;
    say_count(err, records_of(table), b" entry", b" entries")?;
    say(err, b", not ")?;
    say_grouped(err, next(number_at(tariff, 1, next(n))))?;
    say(
        err,
        b". Give one entry for each output of plant 1, 0 and its supply included.\n",
    )
}

// What the terminals take and the depots hold.
fn say_both(err: &impl Print, demand: u64, stock: u64) -> io::Result<()> {
    say(err, b"the terminals take ")?;
    say_grouped(err, demand)?;
    say(err, b", the depots hold ")?;
    say_grouped(err, stock)
}

// Refusal 7. The case of two files has least runs 0.
fn say_too_many(err: &impl Print, demand: u64, stock: u64) -> io::Result<()> {
    say(
        err,
        b"the terminals take less than the depots hold and the least runs make: ",
    )?;
    say_both(err, demand, stock)?;
    say(err, b" and the least runs make 0: ")?;
    say_grouped(err, stock.saturating_sub(demand))?;
    say(
        err,
        b" too many. No plan exists: the stock and what must be made cannot all leave. Lower a stock or a least run, or raise a demand.\n",
    )
}

// Refusal 8.
fn say_too_few(err: &impl Print, demand: u64, stock: u64, plants: u64) -> io::Result<()> {
    say(
        err,
        b"the terminals take more than depots and plants can give: ",
    )?;
    say_both(err, demand, stock)?;
    say(err, b" and the plants can make ")?;
    say_grouped(err, plants)?;
    say(err, b": ")?;
    say_grouped(err, demand.saturating_sub(stock).saturating_sub(plants))?;
    say(
        err,
        b" too few. No plan exists. Raise a capacity or a stock, or lower a demand.\n",
    )
}

// Refusals 7 and 8 with their sums, of a tariff of m sources and n terminals.
pub fn say_balance(err: &impl Print, number: u64, m: u64, n: u64, tariff: &[u8]) -> io::Result<()> {
    let demand = sum_across(tariff, next(m), next(n));
    let stock = sum_down(tariff, 3, next(m), next(n));
    if number == 7 {
        return say_too_many(err, demand, stock);
    }
    say_too_few(err, demand, stock, sum_down(tariff, 1, 3, next(n)))
}

// Refusal 28: the lengths of the two tables.
fn say_lengths(err: &impl Print, path: &[u8], low: &[u8], high: &[u8]) -> io::Result<()> {
    say(err, b"the high file ")?;
    say_name(err, path)?;
    say(err, b" has ")?;
    say_count(err, records_of(high), b" entry", b" entries")?;
    say(err, b", the low one ")?;
    say_grouped(err, records_of(low))?;
    say(
        err,
        b". Give a high entry for each low one, not below it.\n",
    )
}

// Refusal 28: an entry by its split, and by its record, one further.
fn say_high_entry(
    err: &impl Print,
    split: u64,
    path: &[u8],
    low: &[u8],
    high: &[u8],
) -> io::Result<()> {
    let least = number_at(low, next(split), 1);
    let most = number_at(high, next(split), 1);
    say_with(err, b"the entry of split ", split, b" (record ")?;
    say_with(err, b"", next(split), b" of the high file ")?;
    say_name(err, path)?;
    say(err, b"), ")?;
    say_grouped(err, most)?;
    if most < least {
        say(err, b", is below the low one, ")?;
        say_grouped(err, least)?;
    } else {
        say(err, b", is above 1,000,000,000")?;
    }
    say(
        err,
        b". Give a high entry for each low one, not below it.\n",
    )?;
    say_field(err, high, next(split), 1)
}

// Refusal 28 of the high file, by its place.
pub fn say_high(
    err: &impl Print,
    place: u64,
    path: &[u8],
    low: &[u8],
    high: &[u8],
) -> io::Result<()> {
    if records_of(low) != records_of(high) {
        return say_lengths(err, path, low, high);
    }
    say_high_entry(err, place, path, low, high)
}

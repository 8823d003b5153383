// One sentence for each refusal: what it means, where to look and what to do. The words are the Python package's (refusals.py).
use csv_table::table::tariff_stands;
use file_causes::amounts::{say_balance, say_field, say_length};
use file_causes::sentence::explain_file;
use file_io::message::{say, say_name, say_number, say_with};
use file_io::place::{field_at, next, record_end};
use plan_files::planned::Printed;
use std::io;

// Refusal 4: a supply by its source, or a demand by its terminal.
fn explain_amount(err: &impl Print, place: u64, m: u64, n: u64, tariff: &[u8]) -> io::Result<()> {
    if place <= m {
        say_with(err, b"the supply of source ", place, b" is above 4,000.")?;
    } else {
        say_with(
            err,
            b"the demand of terminal ",
            place.saturating_sub(m),
            b" is above 4,000.",
        )?;
    }
    say(
        err,
        b" Look at that number; plan in a larger unit if it is right.\n",
    )?;
    if place <= m {
        return say_field(err, tariff, place, next(n));
    }
    say_field(err, tariff, next(m), place.saturating_sub(m))
}

// Refusal 5: a lane by its source and its terminal.
fn explain_lane(err: &impl Print, place: u64, n: u64, tariff: &[u8]) -> io::Result<()> {
    if n == 0 {
        return Ok(());
    }
    let source = next(place.saturating_sub(1) / n);
    let terminal = next(place.saturating_sub(1) % n);
    say_with(err, b"the unit cost from source ", source, b" to terminal ")?;
    say_number(err, terminal)?;
    say(err, b" is below \xE2\x88\x921,000,000 or above 1,000,000.")?;
    say(
        err,
        b" Look at that cost; use a larger coin if it is right.\n",
    )?;
    say_field(err, tariff, source, terminal)
}

// Refusal 9: an entry by its split, and by its record, one further, in its file.
fn explain_entry(
    err: &impl Print,
    split: u64,
    file: &[u8],
    path: &[u8],
    table: &[u8],
) -> io::Result<()> {
    say_with(err, b"the entry of split ", split, b" (record ")?;
    say_number(err, next(split))?;
    say(err, b" of ")?;
    say(err, file)?;
    say_name(err, path)?;
    say(
        err,
        b") is above 1,000,000,000. Look at that entry; use a larger coin if it is right.\n",
    )?;
    say_field(err, table, next(split), 1)
}

// Refusals 6 and 9, of the file that has the entries, by the tariff and its count of terminals.
pub fn explain_table(
    err: &impl Print,
    number: u64,
    place: u64,
    file: &[u8],
    path: &[u8],
    table: &[u8],
    tariff: &[u8],
    n: u64,
) -> io::Result<()> {
    if number == 6 {
        return say_length(err, file, path, table, tariff, n);
    }
    explain_entry(err, place, file, path, table)
}

// The refusals of a case, by its numbers of sources and terminals. The case of two files has least runs 0
// and the ceiling 4,000 on every lane, so 23, 26 and 27 are none of them.
fn explain_case(
    err: &impl Print,
    number: u64,
    place: u64,
    m: u64,
    n: u64,
    tariff: &[u8],
    production: &[u8],
    production_path: &[u8],
) -> io::Result<()> {
    match number {
        1 => say(
            err,
            b"the count of sources is not 2 to 32. Plan regions apart, or join depots that lie together.\n",
        ),
        2 => say(
            err,
            b"the count of terminals is not 1 to 64. Plan regions apart, or join terminals that lie together.\n",
        ),
        4 => explain_amount(err, place, m, n, tariff),
        5 => explain_lane(err, place, n, tariff),
        6 | 9 => explain_table(
            err,
            number,
            place,
            b"the production file ",
            production_path,
            production,
            tariff,
            n,
        ),
        7 | 8 => say_balance(err, number, m, n, tariff),
        _ => say(err, b"there is no room for the plan or for its stops.\n"),
    }
}

// The refusals of the two files: the tariff is judged first.
fn explain_files(
    err: &impl Print,
    number: u64,
    place: u64,
    tariff: &[u8],
    production: &[u8],
    tariff_path: &[u8],
    production_path: &[u8],
) -> io::Result<()> {
    if tariff_stands(tariff) {
        return explain_file(
            err,
            number,
            place,
            false,
            b"the production file ",
            production_path,
            production,
            1,
        );
    }
    let wanted = field_at(tariff, record_end(tariff, 1));
    explain_file(
        err,
        number,
        place,
        true,
        b"the tariff file ",
        tariff_path,
        tariff,
        wanted,
    )
}

// Says what a refusal means; nothing of a plan.
pub fn explain(
    err: &impl Print,
    printed: Printed,
    tariff: &[u8],
    production: &[u8],
    tariff_path: &[u8],
    production_path: &[u8],
) -> io::Result<()> {
    let number = printed.number;
    let place = printed.place;
    if number == 0 {
        return Ok(());
    }
    say_with(err, b"Refusal ", number, b": ")?;
    if number < 20 {
        return explain_case(
            err,
            number,
            place,
            printed.sources as u64,
            printed.terminals as u64,
            tariff,
            production,
            production_path,
        );
    }
    explain_files(
        err,
        number,
        place,
        tariff,
        production,
        tariff_path,
        production_path,
    )
}

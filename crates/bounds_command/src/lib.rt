// The command `bounds`: reads a tariff and two production files, of the low and the high entries, writes which splits can be the cheapest, or
// the refusal, to standard output, and says what a refusal means on standard error.
#![tactic(auto)]

ghost use Rattle.std.specs.Prelude.{◌≡◌, ◌≤◌, length};

use bounds_files::{bounds_files, low_stands};
use csv_table::table::tariff_stands;
use file_causes::amounts::say_high;
use file_causes::sentence::explain_file;
use file_io::about::told_version;
use file_io::arguments::{argument, argument_count, argument_room, is_help};
use file_io::file::{file_room, first, read_file};
use file_io::message::{say, say_with};
use plan_command::sentence::{explain, explain_table};
use plan_files::planned::Printed;
use std::io;

// Room for the longest text: no text is longer (`bounds_files/TextRoom.text_fits`).
fn text_room() -> [u8; 172286]
    ensures { 172286 ≡ length result }
{
    [0; 172286]
}

// The text in the room, whole: callers show that it fits.
fn whole(room: &[u8], end: usize) -> &[u8]
    requires { end ≤ length room.now }
{
    &room[0..end]
}

// Writes the usage text to standard error.
fn usage(err: &impl Print) -> io::Result<()> {
    say(err, b"usage: bounds [TARIFF LOW HIGH]\n")?;
    say(
        err,
        b"Tells which splits can be the cheapest where each production entry is known between a low and a high one only.\n",
    )?;
    say(
        err,
        b"Reads three CSV files, tariff.csv, low.csv and high.csv of the current folder where none are named.\n",
    )?;
    say(
        err,
        b"Writes the smallest and the largest least total and a record for each split, or a refusal with its place, to standard output.\n",
    )
}

// Refusals 20 to 22 of the low or the high file.
fn explain_entries(
    err: &impl Print,
    number: u64,
    place: u64,
    low: &[u8],
    high: &[u8],
    low_path: &[u8],
    high_path: &[u8],
    low_good: bool,
) -> io::Result<()> {
    say_with(err, b"Refusal ", number, b": ")?;
    if low_good {
        return explain_file(
            err,
            number,
            place,
            false,
            b"the high file ",
            high_path,
            high,
            1,
        );
    }
    explain_file(
        err,
        number,
        place,
        false,
        b"the low file ",
        low_path,
        low,
        1,
    )
}

// Says what a refusal means; nothing of an answer. The low file's entries are those of the case.
fn explain_three(
    err: &impl Print,
    printed: Printed,
    tariff: &[u8],
    low: &[u8],
    high: &[u8],
    tariff_path: &[u8],
    low_path: &[u8],
    high_path: &[u8],
) -> io::Result<()> {
    let number = printed.number;
    let place = printed.place;
    match number {
        6 | 9 => {
            say_with(err, b"Refusal ", number, b": ")?;
            explain_table(
                err,
                number,
                place,
                b"the low file ",
                low_path,
                low,
                tariff,
                printed.terminals as u64,
            )
        }
        28 => {
            say(err, b"Refusal 28: ")?;
            say_high(err, place, high_path, low, high)
        }
        20..=22 => {
            if tariff_stands(tariff) {
                return explain_entries(
                    err,
                    number,
                    place,
                    low,
                    high,
                    low_path,
                    high_path,
                    low_stands(tariff, low),
                );
            }
            explain(err, printed, tariff, low, tariff_path, low_path)
        }
        _ => explain(err, printed, tariff, low, tariff_path, low_path),
    }
}

// Answers three files' bytes.
fn answer(
    rt: &HostRuntime,
    tariff: &[u8],
    low: &[u8],
    high: &[u8],
    tariff_path: &[u8],
    low_path: &[u8],
    high_path: &[u8],
) -> io::Result<()> {
    let err = rt.stderr();
    let mut text = text_room();
    let printed = bounds_files(tariff, low, high, &mut text);
    let length = printed.length;
    if rt.write_all(whole(&text, length)).is_err() {
        say(&err, b"Standard output could not be written.\n")?;
    }
    explain_three(
        &err,
        printed,
        tariff,
        low,
        high,
        tariff_path,
        low_path,
        high_path,
    )
}

// Answers the files of three paths.
pub fn answer_paths(
    rt: &HostRuntime,
    tariff_path: &[u8],
    low_path: &[u8],
    high_path: &[u8],
) -> io::Result<()> {
    let mut tariff = file_room();
    let mut low = file_room();
    let mut high = file_room();
    let t = read_file(rt, tariff_path, &mut tariff);
    let l = read_file(rt, low_path, &mut low);
    let h = read_file(rt, high_path, &mut high);
    answer(
        rt,
        first(&tariff, t),
        first(&low, l),
        first(&high, h),
        tariff_path,
        low_path,
        high_path,
    )
}

// Answers the files of three paths, unless one is the word for help.
fn answer_or_help(rt: &HostRuntime, tariff: &[u8], low: &[u8], high: &[u8]) -> io::Result<()> {
    if is_help(tariff) || is_help(low) || is_help(high) {
        return usage(&rt.stderr());
    }
    answer_paths(rt, tariff, low, high)
}

// Answers the files that the three arguments name.
fn with_arguments(rt: &HostRuntime) -> io::Result<()> {
    let mut tariff = argument_room();
    let mut low = argument_room();
    let mut high = argument_room();
    let t = argument(rt, 1, &mut tariff);
    let l = argument(rt, 2, &mut low);
    let h = argument(rt, 3, &mut high);
    answer_or_help(rt, first(&tariff, t), first(&low, l), first(&high, h))
}

// Answers the files that three arguments name or, without arguments, those of the current folder.
pub fn run(rt: &HostRuntime) -> io::Result<()> {
    if told_version(rt, b"bounds")? {
        return Ok(());
    }
    match argument_count(rt) {
        0 | 1 => answer_paths(rt, b"tariff.csv", b"low.csv", b"high.csv"),
        4 => with_arguments(rt),
        _ => usage(&rt.stderr()),
    }
}

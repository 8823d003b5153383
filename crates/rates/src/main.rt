// The production file of square-root rates for a given output of plant 1; the stored run is the report's plant, `rates 200`.
#![tactic(auto)]

ghost use Rattle.std.specs.Prelude.{◌≡◌, length};

use anyhow::Result;
use file_io::about::told_version;
use file_io::arguments::{argument, argument_count, argument_room};
use file_io::file::first;
use std::io;

fn say(err: &impl Print, text: &[u8]) -> io::Result<()> {
    err.write_all(text)
}

// Writes the usage text to standard error.
fn usage(err: &impl Print) -> io::Result<()> {
    say(err, b"usage: rates OUTPUT\n")?;
    say(
        err,
        b"Writes a production file to standard output: for each output of plant 1 from 0 to OUTPUT, 100 times its square root, rounded down.\n",
    )?;
    say(
        err,
        b"OUTPUT is plant 1's supply in the tariff file, a number of one to four digits, at most 4,000.\n",
    )
}

// Room for the longest file.
fn text_room() -> [u8; 24006]
    ensures { 24006 ≡ length result }
{
    [0; 24006]
}

// Writes the file for an output that a text names, or the usage text.
fn print(rt: &HostRuntime, text: &[u8]) -> io::Result<()> {
    let mut file = text_room();
    let size = ratesfile::put_file(&mut file, text);
    if size == 0 {
        return usage(&rt.stderr());
    }
    if rt.write_all(&file[..size]).is_err() {
        say(&rt.stderr(), b"Standard output could not be written.\n")?;
    }
    Ok(())
}

// Prints the version, the file for the one argument, or the usage text.
fn run(rt: &HostRuntime) -> io::Result<()> {
    if told_version(rt, b"rates")? {
        return Ok(());
    }
    if argument_count(rt) != 2 {
        return usage(&rt.stderr());
    }
    let mut room = argument_room();
    let size = argument(rt, 1, &mut room);
    print(rt, first(&room, size))
}

fn main(rt: HostRuntime) -> Result<()> {
    run(&rt)?;
    Ok(())
}

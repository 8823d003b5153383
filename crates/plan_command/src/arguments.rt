// The arguments, and the usage text.
use crate::file::plan_paths;
use file_io::arguments::{argument, argument_room, is_help};
use file_io::file::first;
use file_io::message::say;
use std::io;

// Writes the usage text to standard error.
pub fn usage(err: &impl Print) -> io::Result<()> {
    say(err, b"usage: plan [TARIFF PRODUCTION]\n")?;
    say(
        err,
        b"Plans production and freight from two CSV files, tariff.csv and production.csv of the current folder where none are named.\n",
    )?;
    say(
        err,
        b"Writes the plan, or a refusal with its place, to standard output.\n",
    )
}

// Plans the files of two paths, unless one is the word for help.
fn plan_or_help(rt: &HostRuntime, tariff: &[u8], production: &[u8]) -> io::Result<()> {
    if is_help(tariff) || is_help(production) {
        return usage(&rt.stderr());
    }
    plan_paths(rt, tariff, production)
}

// Plans the files that the two arguments name. An argument longer than any path is empty here, and no file has that name.
pub fn with_arguments(rt: &HostRuntime) -> io::Result<()> {
    let mut tariff = argument_room();
    let mut production = argument_room();
    let t = argument(rt, 1, &mut tariff);
    let p = argument(rt, 2, &mut production);
    plan_or_help(rt, first(&tariff, t), first(&production, p))
}

// The command `plan`: reads the two files, writes the printed plan or refusal to standard output, and says what a refusal means on
// standard error. The command `tidy`: reads two files, and writes their case as two new ones.
#![tactic(auto)]

mod arguments;
pub mod file;
pub mod rewriting;
pub mod sentence;

use crate::arguments::{usage, with_arguments};
use crate::file::plan_paths;
use crate::rewriting::{tidy_usage, tidy_with_arguments};
use file_io::about::told_version;
use file_io::arguments::argument_count;
use std::io;

// Plans the files that two arguments name or, without arguments, those of the current folder.
pub fn run(rt: &HostRuntime) -> io::Result<()> {
    if told_version(rt, b"plan")? {
        return Ok(());
    }
    match argument_count(rt) {
        0 | 1 => plan_paths(rt, b"tariff.csv", b"production.csv"),
        3 => with_arguments(rt),
        _ => usage(&rt.stderr()),
    }
}

// Writes the case of the files that the first two arguments name as two new files, of the names that the other two give.
pub fn tidy(rt: &HostRuntime) -> io::Result<()> {
    if told_version(rt, b"tidy")? {
        return Ok(());
    }
    match argument_count(rt) {
        5 => tidy_with_arguments(rt),
        _ => tidy_usage(&rt.stderr()),
    }
}

// The version that the programs print.
use crate::arguments::{argument, argument_count, argument_room};
use crate::file::first;
use std::env::Env;
use std::io;

// Writes a program's name and the version, as 1.0.0, to standard output.
fn print_version(out: &impl Print, name: &[u8]) -> io::Result<()> {
    let number = version::number();
    let major = number / 10_000;
    let minor = number / 100 % 100;
    let patch = number % 100;
    out.write_all(name)?;
    println!(out; " {major}.{minor}.{patch}")
}

// Where the one argument is the word for the version it is printed, and all is said.
pub fn told_version(rt: &(impl Env + Print), name: &[u8]) -> io::Result<bool> {
    if argument_count(rt) != 2 {
        return Ok(false);
    }
    let mut word = argument_room();
    let length = argument(rt, 1, &mut word);
    if first(&word, length) != b"--version".as_slice() {
        return Ok(false);
    }
    print_version(rt, name)?;
    Ok(true)
}

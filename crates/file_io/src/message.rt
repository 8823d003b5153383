// Text, numbers and names on standard error, or wherever else they are to be printed.
use crate::shown::{escape, left_of};
use std::io;

pub fn say(err: &impl Print, text: &[u8]) -> io::Result<()> {
    err.write_all(text)
}

pub fn say_number(err: &impl Print, n: u64) -> io::Result<()> {
    err.print(n)
}

// A number between two texts.
pub fn say_with(err: &impl Print, before: &[u8], n: u64, after: &[u8]) -> io::Result<()> {
    say(err, before)?;
    say_number(err, n)?;
    say(err, after)
}

// The last three digits of a number, after a comma.
fn say_group(err: &impl Print, n: u64) -> io::Result<()> {
    say(err, b",")?;
    say_number(err, n / 100 % 10)?;
    say_number(err, n / 10 % 10)?;
    say_number(err, n % 10)
}

// A number in groups of three digits; no number of a file has more than four of them.
pub fn say_grouped(err: &impl Print, n: u64) -> io::Result<()> {
    if n < 1000 {
        return say_number(err, n);
    }
    let mut begun = false;
    for part in [n / 1_000_000_000, n / 1_000_000, n / 1000, n] {
        if begun {
            say_group(err, part)?;
        } else if 0 < part {
            say_number(err, part)?;
            begun = true;
        }
    }
    Ok(())
}

// So many of a thing, in the singular where it is one.
pub fn say_count(err: &impl Print, n: u64, one: &[u8], more: &[u8]) -> io::Result<()> {
    say_grouped(err, n)?;
    if n == 1 {
        say(err, one)
    } else {
        say(err, more)
    }
}

// A byte as it is where so many are shown from it on, else as \xNN.
fn say_byte(err: &impl Print, byte: u8, left: usize) -> io::Result<()> {
    if left == 0 {
        return say(err, &escape(byte));
    }
    say(err, &[byte])
}

// A name or a path, with nothing in it that a terminal would obey.
pub fn say_name(err: &impl Print, name: &[u8]) -> io::Result<()> {
    let mut left: usize = 0;
    for (i, &byte) in name.iter().enumerate() {
        left = left_of(&name[i..], left);
        say_byte(err, byte, left)?;
    }
    Ok(())
}

// Texts of a row, written into a file: \r, \n, \t, \0 and \xHH are bytes, and {3:0,} is 0, three times.
ghost use Rattle.std.specs.Prelude.{◌<◌};

use crate::parts::{before, byte, number};
use test_draws::slices::{first, from};

// Turns that are enough for a file one byte longer than any that is read, with its braces.
const TURNS: u64 = 200_000;

// Where a text is read: the offset, where the repeat begins, and how often it is to be read.
#[derive(Clone, Copy, PartialEq, Eq, Debug, Drop)]
struct Reader {
    at: usize,
    back: usize,
    times: u64,
}

// What is read there: a brace, or a byte and how many bytes of the text stand for it.
#[derive(Clone, Copy, PartialEq, Eq, Debug, Drop)]
enum Sign {
    Open,
    Close,
    Byte(u8, usize),
}

// An offset so many bytes on; no farther than any text goes.
fn past(at: usize, n: usize) -> usize {
    if at < 1_000_000 && n < 1_000_000 {
        at + n
    } else {
        at
    }
}

// Behind an opening brace: the count, a colon, and what is repeated.
fn opened(text: &[u8], at: usize) -> Reader {
    let inside = past(at, 1);
    let rest = from(text, inside);
    let start = past(past(inside, before(rest, b':')), 1);
    Reader {
        at: start,
        back: start,
        times: number(rest),
    }
}

// Behind a closing brace: back, or on after the last time.
fn closed(r: Reader) -> Reader {
    if 1 < r.times {
        return Reader {
            at: r.back,
            back: r.back,
            times: r.times - 1,
        };
    }
    Reader {
        at: past(r.at, 1),
        back: 0,
        times: 0,
    }
}

// The value of a hexadecimal digit, small letters; 0 for any other byte.
fn hex(b: u8) -> u8
    ensures { result < 16 }
{
    match b {
        b'0'..=b'9' => b - b'0',
        b'a'..=b'f' => b - b'a' + 10,
        _ => 0,
    }
}

// The byte that a letter behind a backslash stands for.
fn plain(letter: u8) -> u8 {
    match letter {
        b'r' => b'\r',
        b'n' => b'\n',
        b't' => b'\t',
        b'0' => 0,
        _ => letter,
    }
}

// What a backslash and what stands behind it mean.
fn escaped(text: &[u8], at: usize) -> Sign {
    let letter = byte(text, past(at, 1));
    if letter == b'x' {
        let high = hex(byte(text, past(at, 2)));
        let low = hex(byte(text, past(at, 3)));
        return Sign::Byte(high * 16 + low, 4);
    }
    Sign::Byte(plain(letter), 2)
}

fn sign_at(text: &[u8], at: usize) -> Sign {
    match byte(text, at) {
        b'{' => Sign::Open,
        b'}' => Sign::Close,
        b'\\' => escaped(text, at),
        b => Sign::Byte(b, 1),
    }
}

// A file, with room for the longest that is read and one byte more.
#[derive(Clone, Copy, PartialEq, Eq, Debug, Drop)]
pub struct File {
    bytes: [u8; 65537],
    length: usize,
}

impl File {
    pub fn new() -> File {
        File {
            bytes: [0; 65537],
            length: 0,
        }
    }

    // What is written.
    pub fn bytes(&self) -> &[u8] {
        first(&self.bytes, self.length)
    }

    // Writes a byte behind what is written, where there is room.
    fn put(&mut self, byte: u8) {
        if self.length < 65_537 {
            self.bytes[self.length] = byte;
            self.length += 1;
        }
    }

    // Writes a text behind what is written, as far as there is room.
    pub fn add(&mut self, text: &[u8]) {
        let mut r = Reader {
            at: 0,
            back: 0,
            times: 0,
        };
        for _ in 0..TURNS {
            let at = r.at;
            if text.len() <= at {
                return;
            }
            match sign_at(text, at) {
                Sign::Open => r = opened(text, at),
                Sign::Close => r = closed(r),
                Sign::Byte(b, n) => {
                    self.put(b);
                    r.at = past(at, n);
                }
            }
        }
    }
}

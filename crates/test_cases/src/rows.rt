// The numbers of a line.
use test_draws::slices::{first, from};
use test_referee::bench::{
    ANSWER, BEST, CEILINGS, COSTS, DEMANDS, KNOWN, RUN1, SOURCES, SPARE, SUPPLIES, TABLE, WAYS,
    ZERO,
};
use test_referee::cells::NONE;
use test_rows::parts::{byte, number};

// A number, and the offset behind it.
#[derive(Clone, Copy, PartialEq, Eq, Debug, Drop)]
pub struct Read {
    pub value: u64,
    pub next: usize,
}

// So many cells, the first number, and what each is less than the one before; the offset behind.
#[derive(Clone, Copy, PartialEq, Eq, Debug, Drop)]
pub struct Item {
    pub cells: u64,
    pub first: u64,
    pub fall: u64,
    pub next: usize,
}

// The offset of the first byte from `at` on that is below the least or above the most.
pub fn end_of(s: &[u8], at: usize, least: u8, most: u8) -> usize {
    let rest = from(s, at);
    let bytes = rest
        .iter()
        .position(|b| *b < least || most < *b)
        .unwrap_or(rest.len());
    at.saturating_add(bytes)
}

// The number whose digits stand from `at` on.
fn digits(s: &[u8], at: usize) -> Read {
    Read {
        value: number(from(s, at)),
        next: end_of(s, at, b'0', b'9'),
    }
}

// The cell that a word stands for, by its first letter.
fn cell_of_word(letter: u8) -> u64 {
    match letter {
        b'l' => SOURCES,
        b'r' => RUN1,
        b'k' => KNOWN,
        b'a' => ANSWER,
        b's' => SUPPLIES,
        b'd' => DEMANDS,
        b't' => TABLE,
        b'c' => CEILINGS,
        b'u' => COSTS,
        b'f' => BEST,
        b'w' => WAYS,
        b'n' => NONE,
        _ => SPARE,
    }
}

// What a mark before digits says; the other number where it is not there.
fn marked(s: &[u8], at: usize, mark: u8, otherwise: u64) -> Read {
    if byte(s, at) == mark {
        return digits(s, at.saturating_add(1));
    }
    Read {
        value: otherwise,
        next: at,
    }
}

// A word, with or without an offset.
fn word_at(s: &[u8], at: usize) -> Read {
    let offset = marked(s, end_of(s, at, b'_', b'z'), b'.', 0);
    Read {
        value: cell_of_word(byte(s, at)).saturating_add(offset.value),
        next: offset.next,
    }
}

// A number, a signed number, or a word.
pub fn value_of(s: &[u8], at: usize) -> Read {
    let size = digits(s, at.saturating_add(1));
    match byte(s, at) {
        b'+' => Read {
            value: ZERO.saturating_add(size.value),
            next: size.next,
        },
        b'-' => Read {
            value: ZERO.saturating_sub(size.value),
            next: size.next,
        },
        b if b < b'a' => digits(s, at),
        _ => word_at(s, at),
    }
}

// What stands behind a space, if one does.
pub fn item_at(s: &[u8], at: usize) -> Option<Item> {
    if byte(s, at) != b' ' {
        return None;
    }
    let v = value_of(s, at.saturating_add(1));
    let cells = marked(s, v.next, b'*', 1);
    let fall = marked(s, cells.next, b'/', 0);
    Some(Item {
        cells: cells.value,
        first: v.value,
        fall: fall.value,
        next: fall.next,
    })
}

// One case: what `possible_splits` answers, held to every table between the bounds.
use crate::brute::{Levels, try_tables};
use crate::case::{answer, level, levels};
use crate::expect::{alike, bad_entry, first_split, splits};
use bounds_problem::Known;
use bounds_splits::possible_splits;
use lent_case::Case;
use refusal::{Cause, Refusal};

// What is answered; whether it is what is wanted; how many splits there are, how many can be the cheapest, and how many tables were tried.
#[derive(Clone, Copy, PartialEq, Eq, Debug)]
pub struct Seen {
    pub said: Result<(), Refusal>,
    pub agrees: bool,
    pub splits: u64,
    pub possible: u64,
    pub tables: u64,
}

fn without_tables(said: Result<(), Refusal>, agrees: bool) -> Seen {
    Seen {
        said,
        agrees,
        splits: 0,
        possible: 0,
        tables: 0,
    }
}

// The refusal that is wanted, if one is: the planner's of the low table, then of the high table, then of few cells.
fn wanted(c: &Case, levels: &Levels, high: &[u64], cells: usize) -> Result<(), Refusal> {
    answer(c)?;
    if high.len() != c.table.len() {
        return Err(Cause::HighEntry.at(0));
    }
    if let Some(y) = bad_entry(levels, c.table, high) {
        return Err(Cause::HighEntry.at(y));
    }
    if cells < splits(levels) {
        return Err(Cause::Room.at(0));
    }
    Ok(())
}

// The answer of a case that is not refused.
fn hold_known(levels: &Levels, low: &[u64], high: &[u64], answers: &[u64], known: Known) -> Seen {
    let reached = try_tables(levels, low, high);
    Seen {
        said: Ok(()),
        agrees: known.first == first_split(levels)
            && known.count == splits(levels)
            && level(known.smallest) == reached.smallest
            && level(known.largest) == reached.largest
            && alike(levels, &reached.marks, answers),
        splits: known.count as u64,
        possible: reached.marks.iter().filter(|mark| **mark).count() as u64,
        tables: reached.tables,
    }
}

// Asks for the splits that can be the cheapest where the case's table is the low one, and holds the answer: a refusal to the one wanted, with no answer
// written; splits to all tables. Each cell of the answers holds 7 before.
pub fn hold(c: &Case, high: &[u64], answers: &mut [u64]) -> Seen {
    let levels = levels(c);
    let want = wanted(c, &levels, high, answers.len());
    let found = possible_splits(c, high, answers);
    match found {
        Ok(known) if want.is_ok() => hold_known(&levels, c.table, high, answers, known),
        Ok(_) => without_tables(Ok(()), false),
        Err(refusal) => {
            let kept = answers.iter().all(|cell| *cell == 7);
            without_tables(Err(refusal), want == Err(refusal) && kept)
        }
    }
}

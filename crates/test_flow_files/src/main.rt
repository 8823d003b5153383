// Runs damaged network files through `flow_files`, and holds each answer to the refusal and place, or the total, that is expected.
// The files stand in the file `stdin`, a row each; its first lines say how a row is read.
#![tactic(auto)]

mod trial;

use crate::trial::{Found, trial};
use std::io;
use test_draws::tally::{Tally, say};
use test_rows::input::read_full;
use test_rows::parts::run_rows;

// The refusals that are told.
const TOLD: [usize; 6] = [20, 21, 22, 27, 29, 30];

fn report(rt: &impl Print, found: &Found) -> io::Result<()> {
    say(rt, "flows: ", found.answers.of(0))?;
    for number in TOLD {
        let n = found.answers.of(number);
        println!(rt; "refused {number}: {n}")?;
    }
    say(rt, "files: ", found.files)?;
    say(rt, "differences: ", found.differences)
}

fn run_table(rt: &impl Print, table: &[u8]) -> io::Result<()> {
    let mut found = Found {
        answers: Tally::new(),
        files: 0,
        differences: 0,
    };
    run_rows(table, |row| trial(rt, &mut found, row))?;
    report(rt, &found)
}

fn main(rt: HostRuntime) -> io::Result<()> {
    let mut table = [0u8; 65536];
    let size = read_full(&mut rt.reader(), &mut table);
    run_table(&rt, &table[..size])
}

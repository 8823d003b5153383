// Runs pairs of files through the planner's file reader, and holds each answer to the refusal and place that the scope gives.
// The pairs stand in the file `stdin`, a row each; its first lines say how a row is read.
#![tactic(auto)]

mod report;
mod trial;

use crate::report::{Found, report};
use crate::trial::trial;
use std::io;
use test_draws::tally::Tally;
use test_rows::input::read_full;
use test_rows::parts::run_rows;

fn run_table(rt: &impl Print, table: &[u8]) -> io::Result<()> {
    let mut found = Found {
        answers: Tally::new(),
        cases: 0,
        differences: 0,
    };
    run_rows(table, |row| trial(rt, &mut found, row))?;
    report(rt, &found)
}

fn main(rt: HostRuntime) -> io::Result<()> {
    let mut table = [0u8; 65536];
    let size = read_full(&mut rt.reader(), &mut table);
    run_table(&rt, &table[..size])
}

// The counts of what was met, a line each.
use std::io;
use test_draws::tally::{Tally, say};

// What was met: the answers by number, 0 for a plan, how many cases were run, and how many were answered otherwise.
#[derive(Clone, Copy, PartialEq, Eq, Debug, Drop)]
pub struct Found {
    pub answers: Tally<24>,
    pub cases: u64,
    pub differences: u64,
}

fn say_all_refused(rt: &impl Print, answers: &Tally<24>) -> io::Result<()> {
    for number in 1..24 {
        let n = answers.of(number);
        if n != 0 {
            println!(rt; "refused {number}: {n}")?;
        }
    }
    Ok(())
}

pub fn report(rt: &impl Print, found: &Found) -> io::Result<()> {
    say(rt, "planned: ", found.answers.of(0))?;
    say_all_refused(rt, &found.answers)?;
    say(rt, "cases: ", found.cases)?;
    say(rt, "differences: ", found.differences)
}

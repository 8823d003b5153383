// The fixed cases of the scope, with the answers that it gives. They stand in the file `stdin`, whose first lines say how it is read.
use crate::planned::Outcome;
use crate::trial::{close, run_known, run_small};
use test_cases::rows::{item_at, value_of};
use test_referee::bench::{ANSWER, BASE, CASE, KNOWN};
use test_referee::cells::{at, fill, transfer};
use test_referee::compare::{Check, Checked, Planned, Told, check_told, hold};
use test_referee::paper::Refusal;
use test_rows::parts::byte;

// Writes the numbers of a line, which has fewer than bytes, from the cell on that it names.
fn write_line(b: &mut [u64], line: &[u8]) {
    let start = value_of(line, 0);
    let mut cell = start.value;
    let mut next = start.next;
    for _ in 0..line.len() {
        let Some(i) = item_at(line, next) else {
            return;
        };
        fill(b, cell, i.cells, i.first, i.fall);
        cell = cell.saturating_add(i.cells);
        next = i.next;
    }
}

// The answer that stands in the bench.
fn given(b: &[u64]) -> Told {
    match at(b, ANSWER) {
        0 => Ok(Planned {
            split: at(b, ANSWER + 2),
            total: at(b, ANSWER + 3),
            freight: at(b, ANSWER + 4),
            stops: at(b, ANSWER + 5),
            ties: 0,
        }),
        number => Err(Refusal {
            number,
            place: at(b, ANSWER + 1),
        }),
    }
}

// Whether the answer is the one that stands in the bench.
fn check_given(o: Outcome, b: &[u64]) -> Checked {
    o.checked?;
    let want = given(b);
    hold(check_told(want, o.got).is_ok(), Check::Given)?;
    match (want, o.got) {
        (Ok(p), Ok(q)) => hold(p.stops == q.stops, Check::Given),
        _ => Ok(()),
    }
}

// Runs a case, against the listing or the least freights given, and against the answer.
fn run_case(b: &mut [u64]) -> Checked {
    if at(b, KNOWN) == 0 {
        let o = run_small(b);
        return check_given(o, b);
    }
    check_given(run_known(b), b)
}

// Runs a case, counts it, and goes back to the base.
fn run_answer(b: &mut [u64]) {
    let checked = run_case(b);
    close(b, checked);
    transfer(b, BASE, CASE, 0);
}

fn run_line(b: &mut [u64], line: &[u8]) {
    write_line(b, line);
    match byte(line, 0) {
        b'b' => transfer(b, 0, CASE, BASE),
        b'a' => run_answer(b),
        _ => {}
    }
}

// Runs each line of the table: a byte that is not printed ends one.
pub fn run_fixed(b: &mut [u64], table: &[u8]) {
    for line in table.split(|x| *x < b' ' || b'~' < *x) {
        run_line(b, line);
    }
}

// One trial: the files of a row, and the answer expected.
use flow_files::flow_files;
use std::io;
use std::io::Write;
use test_draws::slices::{first, from};
use test_draws::tally::Tally;
use test_rows::parts::field;
use test_rows::text::File;

// What was met: the answers by number, 0 for a flow, how many files were run, and how many were answered otherwise.
#[derive(Clone, Copy, PartialEq, Eq, Debug, Drop)]
pub struct Found {
    pub answers: Tally<32>,
    pub files: u64,
    pub differences: u64,
}

// Whether a text begins with three parts.
fn begins(text: &[u8], head: &[u8], part: &[u8], tail: &[u8]) -> bool {
    let rest = from(text, head.len());
    let last = from(rest, part.len());
    first(text, head.len()) == head
        && first(rest, part.len()) == part
        && first(last, tail.len()) == tail
}

// Whether a text is a flow of the total, or the refusal, that is expected.
fn reads(text: &[u8], answer: &[u8]) -> bool {
    if first(answer, 5) == b"flow,".as_slice() {
        return begins(
            text,
            b"total\r\n",
            from(answer, 5),
            b"\r\nstart,end,flow,cost\r\n",
        );
    }
    begins(text, b"refusal,place\r\n", answer, b"\r\n")
}

// Writes a row that is answered otherwise, with what was answered.
fn say_difference(rt: &impl Print, row: &[u8], text: &[u8]) -> io::Result<()> {
    let mut out = io::writer(rt);
    out.write_all(b"difference: ")?;
    out.write_all(row)?;
    out.write_all(b" given ")?;
    out.write_all(text)
}

// Runs a row, the answer, the arc's place, the table file and the network file: counts the answer, and holds the printed text to the row's.
pub fn trial(rt: &impl Print, found: &mut Found, row: &[u8]) -> io::Result<()> {
    let mut network = File::new();
    let mut table = File::new();
    let mut text = [0u8; 4096];
    network.add(field(row, 3));
    table.add(field(row, 2));
    let printed = flow_files(network.bytes(), field(row, 1), table.bytes(), &mut text);
    let told = first(&text, printed.length);
    found.files = found.files.saturating_add(1);
    found.answers.count(printed.number as usize);
    if reads(told, field(row, 0)) {
        return Ok(());
    }
    found.differences = found.differences.saturating_add(1);
    say_difference(rt, row, told)
}

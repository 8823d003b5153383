// One trial: the files of a row, and the answer expected.
use crate::report::Found;
use plan_files::planned::{Printed, plan_files};
use std::io;
use std::io::Write;
use test_draws::slices::{first, from};
use test_rewrite::{Files, rewritten, stays};
use test_rows::parts::{before, field, number};
use test_rows::text::File;

// What a row makes of one of case A's files: nothing, another file, or the file with so many bytes, from an offset on, replaced.
#[derive(Clone, Copy, PartialEq, Eq, Debug, Drop)]
enum Edit<'a> {
    None,
    Whole(&'a [u8]),
    Part(usize, usize, &'a [u8]),
}

// The edit of the file of this name, whose whole text stands in the field `own`.
fn edit_of<'a>(row: &'a [u8], name: &[u8], own: usize) -> Edit<'a> {
    let kind = field(row, 1);
    if kind == name {
        let at = number(field(row, 2)) as usize;
        let cut = number(field(row, 3)) as usize;
        return Edit::Part(at, cut, field(row, 4));
    }
    if kind == b"files".as_slice() {
        return Edit::Whole(field(row, own));
    }
    Edit::None
}

// A file with an edit.
fn edited(base: &[u8], edit: Edit) -> File {
    let mut file = File::new();
    match edit {
        Edit::None => file.add(base),
        Edit::Whole(text) => file.add(text),
        Edit::Part(at, cut, text) => {
            file.add(first(base, at));
            file.add(text);
            file.add(from(from(base, at), cut));
        }
    }
    file
}

// Whether a text is the header of a plan or, where the answer is a refusal, the whole text of it.
fn reads(text: &[u8], answer: &[u8]) -> bool {
    if answer == b"plan".as_slice() {
        return first(text, 29) == b"source,terminal,amount,cost\r\n".as_slice();
    }
    let record = from(text, 15);
    first(text, 15) == b"refusal,place\r\n".as_slice()
        && first(record, answer.len()) == answer
        && from(record, answer.len()) == b"\r\n".as_slice()
}

// Whether number, place and text are those of the answer expected.
fn held(answer: &[u8], printed: &Printed, text: &[u8]) -> bool {
    let place = from(from(answer, before(answer, b',')), 1);
    printed.number == number(answer) && printed.place == number(place) && reads(text, answer)
}

// Whether two files that stand are written anew as two of the same plan, which are then written again as they are.
fn comes_back(files: Files<'_>, plan: &[u8]) -> bool {
    let mut tariff = [0u8; 65_537];
    let mut production = [0u8; 65_537];
    let Some(anew) = rewritten(files, &mut tariff, &mut production) else {
        return false;
    };
    let mut text = [0u8; 4096];
    let length = plan_files(anew.tariff, anew.production, &mut text).length;
    let mut again = [0u8; 65_537];
    let mut other = [0u8; 65_537];
    first(&text, length) == plan && stays(anew, &mut again, &mut other)
}

// Writes a row that is answered otherwise.
fn say_difference(rt: &impl Print, row: &[u8], printed: &Printed) -> io::Result<()> {
    let mut out = io::writer(rt);
    out.write_all(b"difference: ")?;
    out.write_all(row)?;
    writeln!(out, " given {},{}", printed.number, printed.place)
}

// Plans the two files of a row, counts the answer, and holds it to the row's, a plan also to the case written out. A difference is counted and written.
fn hold(
    rt: &impl Print,
    found: &mut Found,
    row: &[u8],
    tariff: &[u8],
    production: &[u8],
) -> io::Result<()> {
    let mut text = [0u8; 4096];
    let printed = plan_files(tariff, production, &mut text);
    let plan = first(&text, printed.length);
    found.cases = found.cases.saturating_add(1);
    found.answers.count(printed.number as usize);
    let right = held(field(row, 0), &printed, plan);
    if right && (printed.number != 0 || comes_back(Files { tariff, production }, plan)) {
        return Ok(());
    }
    found.differences = found.differences.saturating_add(1);
    say_difference(rt, row, &printed)
}

// Runs a row.
pub fn trial(rt: &impl Print, found: &mut Found, row: &[u8]) -> io::Result<()> {
    let tariff = edited(
        b"2,6,3\r\n5,3,3\r\n1,4,1\r\n3,2,",
        edit_of(row, b"tariff", 2),
    );
    let production = edited(b"99\r\n20\r\n24\r\n20\r\n", edit_of(row, b"production", 3));
    hold(rt, found, row, tariff.bytes(), production.bytes())
}

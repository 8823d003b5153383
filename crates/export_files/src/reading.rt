// The numbers that files hold, in lent slices. Each function answers 0, or the number of the refusal, and then writes no number: 20 to 22 of the
// files, 1 and 2 for a case of a size that is never planned, 11 for a lent slice that is too short. Where the report is too short for what it
// is to tell the answer is 34, and nothing is done.
ghost use Rattle.std.specs.Prelude.{◌≡◌, ◌≤◌, length};
ghost use Rattle.transport.specs.Curve.{written};
ghost use Rattle.export_files.specs.Reading.{faulty_file, too_short, roomy_reading, sized_reading, reading_of, reading_number, reading_report};
ghost use Rattle.export_files.specs.Reading.{CaseRead, ReadExported, entries_answer, EntriesExported};

use csv_case::case::{read_case, read_entries};
use csv_table::table::tariff_stands;
use refusal::{Cause, Refusal};
use size::limits::Size;

// The counts of sources, terminals and entries, or a refusal with the file that it is about: 1 the tariff, 2 the production file, 0 neither.
#[derive(Drop)]
pub enum Reading {
    Read { m: usize, n: usize, entries: usize },
    Refused { number: u64, place: u64, file: u64 },
}

// The file that is refused where one of the two is.
fn faulty_file(tariff: &[u8]) -> u64
    ensures { result ≡ faulty_file tariff.now }
{
    if tariff_stands(tariff) { 2 } else { 1 }
}

// Whether slices of these lengths are too short for a case of at most 32 sources and 64 terminals.
fn too_short(
    m: usize,
    n: usize,
    entries: usize,
    costs: usize,
    supplies: usize,
    demands: usize,
    table: usize,
) -> bool
    requires { (m ≤ 32) × (n ≤ 64) }
    ensures { result ≡ too_short m n entries costs supplies demands table }
{
    if costs < m * n {
        return true;
    }
    if supplies < m {
        return true;
    }
    if demands < n {
        return true;
    }
    table < entries.min(4002)
}

// What is answered of a case of a size that can be planned.
fn roomy(
    m: usize,
    n: usize,
    entries: usize,
    costs: usize,
    supplies: usize,
    demands: usize,
    table: usize,
) -> Reading
    requires { (m ≤ 32) × (n ≤ 64) }
    ensures { result ≡ roomy_reading m n entries costs supplies demands table }
{
    if too_short(m, n, entries, costs, supplies, demands, table) {
        return Reading::Refused {
            number: 11,
            place: 0,
            file: 0,
        };
    }
    Reading::Read { m, n, entries }
}

// What is answered of a case.
fn sized(
    m: usize,
    n: usize,
    entries: usize,
    costs: usize,
    supplies: usize,
    demands: usize,
    table: usize,
) -> Reading
    ensures { result ≡ sized_reading m n entries costs supplies demands table }
{
    let size = Size::checked(m, n);
    match size {
        Err(cause) => Reading::Refused {
            number: cause.number(),
            place: 0,
            file: 0,
        },
        Ok(_) => roomy(m, n, entries, costs, supplies, demands, table),
    }
}

// What is answered of two files, where the slices have these lengths; no number is stored.
fn judged(
    tariff: &[u8],
    production: &[u8],
    costs: usize,
    supplies: usize,
    demands: usize,
    table: usize,
) -> Reading
    ensures { result ≡ reading_of tariff.now production.now costs supplies demands table }
{
    let mut c = [0i64; 1];
    let mut s = [0u64; 1];
    let mut d = [0u64; 1];
    let mut t = [0u64; 1];
    let answer = read_case(tariff, production, &mut c, &mut s, &mut d, &mut t);
    match answer {
        Err(r) => Reading::Refused {
            number: r.cause.number(),
            place: r.place,
            file: faulty_file(tariff),
        },
        Ok(k) => sized(k.m, k.n, k.entries, costs, supplies, demands, table),
    }
}

// Reads the case of two files into lent slices: of the entries 4,002 at most, which is one more than any case has.
fn read_into(
    tariff: &[u8],
    production: &[u8],
    costs: &mut [i64],
    supplies: &mut [u64],
    demands: &mut [u64],
    table: &mut [u64],
) -> Reading
    ensures { CaseRead tariff.now production.now costs.old supplies.old
        demands.old table.old costs.new supplies.new demands.new table.new result }
{
    let reading = judged(
        tariff,
        production,
        costs.len(),
        supplies.len(),
        demands.len(),
        table.len(),
    );
    match reading {
        Reading::Refused {
            number,
            place,
            file,
        } => Reading::Refused {
            number,
            place,
            file,
        },
        Reading::Read { m, n, entries } => {
            let _ = read_case(tariff, production, costs, supplies, demands, table);
            Reading::Read { m, n, entries }
        }
    }
}

// Writes the three counts, or the place and the file; the number.
fn tell_reading(reading: Reading, report: &mut [u64]) -> u64
    requires { 3 ≤ length report.old }
    ensures { (result ≡ reading_number reading) × (report.new ≡ written (reading_report reading) report.old) }
{
    match reading {
        Reading::Read { m, n, entries } => {
            report[0] = m as u64;
            report[1] = n as u64;
            report[2] = entries as u64;
            0
        }
        Reading::Refused {
            number,
            place,
            file,
        } => {
            report[0] = place;
            report[1] = file;
            number
        }
    }
}

// Reads the case of two files, and tells the counts or the refusal in a report of at least three cells.
pub fn read_files(
    tariff: &[u8],
    production: &[u8],
    costs: &mut [i64],
    supplies: &mut [u64],
    demands: &mut [u64],
    table: &mut [u64],
    report: &mut [u64],
) -> u64
    ensures { ReadExported tariff.now production.now costs.old supplies.old
        demands.old table.old costs.new supplies.new demands.new table.new
        report.old report.new result }
{
    if report.len() < 3 {
        return 34;
    }
    let reading = read_into(tariff, production, costs, supplies, demands, table);
    tell_reading(reading, report)
}

// What is answered of a production file alone, where the slice has this length; no number is stored.
fn judged_entries(production: &[u8], table: usize) -> Result<usize, Refusal>
    ensures { result ≡ entries_answer production.now table }
{
    let mut spare = [0u64; 1];
    let count = read_entries(production, &mut spare)?;
    if table < count.min(4002) {
        return Err(Cause::Room.at(0));
    }
    Ok(count)
}

// Reads a production file alone, 4,002 entries at most, and tells their count or the refusal's place in a report of at least two cells.
pub fn read_table_file(production: &[u8], table: &mut [u64], report: &mut [u64]) -> u64
    ensures { EntriesExported production.now table.old table.new report.old report.new result }
{
    if report.len() < 2 {
        return 34;
    }
    let found = judged_entries(production, table.len());
    match found {
        Err(r) => {
            report[0] = r.place;
            r.cause.number()
        }
        Ok(count) => {
            let _ = read_entries(production, table);
            report[0] = count as u64;
            0
        }
    }
}

// A planning case from its two files.
ghost use Rattle.std.specs.Prelude.{◌≡◌, map, min, ◌+◌, ◌-◌, ◌*◌, ◌≤◌, nat_abs, length, take};
ghost use Rattle.std.proofs.lemmas.List.Edits.{sets};
ghost use Rattle.csv_case.specs.Entries.{EntriesStored};
ghost use Rattle.csv_case.specs.CaseFiles.{cost_rows, supply_rows, Shared, CaseStored};

use csv_form::Kind;
use csv_print::magnitude;
use csv_table::store::{copy_fields, put};
use csv_table::table::{Shape, read_table};
use refusal::Refusal;

// The counts of sources, terminals and production entries.
#[derive(Clone, Copy, Debug, PartialEq, Eq)]
pub struct CaseShape {
    pub m: usize,
    pub n: usize,
    pub entries: usize,
}

// Cells for the fields of a tariff of 32 sources and 64 terminals: 33 records of 65 fields.
fn blank() -> [i64; 2145] {
    [0; 2145]
}

// Cells for the entries of the longest table, and one more.
fn entry_blank() -> [i64; 4002] {
    [0; 4002]
}

// Shares out the source records: n unit costs, then the supply.
fn share_sources(cells: &[i64], m: usize, n: usize, costs: &mut [i64], supplies: &mut [u64])
    requires n_in_bounds { m * (n + 1) ≤ length cells.now }
    requires n_bound { n ≤ 64 }
    ensures costs_after { costs.new ≡ sets costs.old 0 (cost_rows m n cells.now) }
    ensures supplies_after { supplies.new ≡ sets supplies.old 0 (supply_rows m n cells.now) }
{
    let mut start: usize = 0;
    let mut at: usize = 0;
    for i in 0..m {
        copy_fields(cells, start, n, costs, at);
        put(supplies, i, magnitude(cells[start + n]));
        start = start + n + 1;
        at = at + n;
    }
}

// Shares out the records of a tariff of at most 32 sources and 64 terminals.
fn share(
    cells: &[i64],
    m: usize,
    n: usize,
    costs: &mut [i64],
    supplies: &mut [u64],
    demands: &mut [u64],
)
    requires { length cells.now ≡ 2145 }
    ensures { Shared m n cells.now costs.old supplies.old demands.old costs.new
        supplies.new demands.new }
{
    if 32 < m {
        return;
    }
    if 64 < n {
        return;
    }
    share_sources(cells, m, n, costs, supplies);
    copy_fields(cells, m * (n + 1), n, demands, 0);
}

// Shares out the entries of the production file, 4,002 at most.
fn share_entries(cells: &[i64], entries: usize, table: &mut [u64])
    requires { length cells.now ≡ 4002 }
    ensures { table.new ≡ sets table.old 0 (map nat_abs (take (min entries 4002) cells.now)) }
{
    copy_fields(cells, 0, entries.min(4002), table, 0);
}

// Reads both files. Stores unit costs, supplies and demands, where there are at most 32 sources and 64 terminals, and at most 4,002
// production entries, as far as there are cells.
pub fn read_case(
    tariff: &[u8],
    production: &[u8],
    costs: &mut [i64],
    supplies: &mut [u64],
    demands: &mut [u64],
    table: &mut [u64],
) -> Result<CaseShape, Refusal>
    ensures { CaseStored tariff.now production.now costs.old supplies.old
        demands.old table.old costs.new supplies.new demands.new table.new result }
{
    let mut cells = blank();
    let Shape { records, fields } = read_table(Kind::Tariff, tariff, &mut cells)?;
    let mut held = entry_blank();
    let p = read_table(Kind::Production, production, &mut held)?;
    let entries = p.records;
    let m = records - 1;
    let n = fields - 1;
    share(&cells, m, n, costs, supplies, demands);
    share_entries(&held, entries, table);
    Ok(CaseShape { m, n, entries })
}

// Reads a production file alone. Stores at most 4,002 entries, as far as there are cells.
pub fn read_entries(production: &[u8], table: &mut [u64]) -> Result<usize, Refusal>
    ensures { EntriesStored production.now table.old table.new result }
{
    let mut held = entry_blank();
    let p = read_table(Kind::Production, production, &mut held)?;
    share_entries(&held, p.records, table);
    Ok(p.records)
}

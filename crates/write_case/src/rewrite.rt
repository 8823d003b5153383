// Two files read and written again in the one form of their case.
ghost use Rattle.std.specs.Prelude.{min, ◌*◌, take};
ghost use Rattle.planner.specs.Judge.{free_case};
ghost use Rattle.plan_files.specs.inner.StoredCase.{Stored};
ghost use Rattle.write_case.specs.Writing.{CaseWritten, FilesRewritten};

use crate::{Texts, write_case};
use csv_case::case::read_case;

// Cells for the unit costs of 32 sources and 64 terminals.
fn cost_cells() -> [i64; 2048] {
    [0; 2048]
}

// One cell more than the longest table has entries.
fn entry_cells() -> [u64; 4002] {
    [0; 4002]
}

// Cuts the stored case to what it has, and writes it.
fn write_stored(
    m: usize,
    n: usize,
    entries: usize,
    costs: &[i64],
    supplies: &[u64],
    demands: &[u64],
    table: &[u64],
    tariff: &mut [u8],
    production: &mut [u8],
) -> Texts
    requires { Stored costs.now supplies.now demands.now table.now }
    ensures { CaseWritten
        (free_case m n (take (min m 32 * min n 64) costs.now) (take (min m 32) supplies.now)
        (take (min n 64) demands.now) (take (min entries 4002) table.now) 2048 4001 4001)
        tariff.old production.old tariff.new production.new result }
{
    let a = m.min(32);
    let b = n.min(64);
    let e = entries.min(4002);
    let lanes = a * b;
    write_case(
        m,
        n,
        &costs[..lanes],
        &supplies[..a],
        &demands[..b],
        &table[..e],
        tariff,
        production,
    )
}

// Reads the case that two files are, and writes its two files, or refuses it and writes nothing.
pub fn rewrite_files(
    tariff: &[u8],
    production: &[u8],
    new_tariff: &mut [u8],
    new_production: &mut [u8],
) -> Texts
    ensures { FilesRewritten tariff.now production.now new_tariff.old
        new_production.old new_tariff.new new_production.new result }
{
    let mut costs = cost_cells();
    let mut supplies = [0u64; 32];
    let mut demands = [0u64; 64];
    let mut table = entry_cells();
    let answer = read_case(
        tariff,
        production,
        &mut costs,
        &mut supplies,
        &mut demands,
        &mut table,
    );
    match answer {
        Err(r) => Texts::Refused {
            number: r.cause.number(),
            place: r.place,
        },
        Ok(k) => write_stored(
            k.m,
            k.n,
            k.entries,
            &costs,
            &supplies,
            &demands,
            &table,
            new_tariff,
            new_production,
        ),
    }
}

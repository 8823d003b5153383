// A case written out as its two files.
#![tactic(auto)]

ghost use Rattle.std.specs.Prelude.{◌≡◌, ℕ};
ghost use Rattle.planner.specs.Judge.{judged, free_case};
ghost use Rattle.write_case.specs.Writing.{entries_refusal, CaseWritten};

use case_texts::{put_production, put_tariff};
use planner::judge::judge;
use refusal::{Cause, Refusal};

pub mod rewrite;

// The lengths of both texts, or a refusal.
#[derive(Drop)]
pub enum Texts {
    Written { tariff: usize, production: usize },
    Refused { number: u64, place: u64 },
}

// Tests 1 to 9, with 23, 26 and 27 where they stand, then 32.
fn test_case(
    m: usize,
    n: usize,
    costs: &[i64],
    supplies: &[u64],
    demands: &[u64],
    table: &[u64],
) -> Result<(), Refusal>
    ensures { (p s f : ℕ) →
        judged result ≡ entries_refusal (free_case m n costs.now supplies.now demands.now table.now p s f) }
{
    judge(m, n, costs, supplies, demands, table)?;
    for y in 0..table.len() {
        if 9_999_999_999 < table[y] {
            return Err(Cause::WideEntry.at(y as u64));
        }
    }
    Ok(())
}

// Writes the two files of a case with least runs 0 and the ceiling 4,000 on every lane, or refuses it and writes nothing.
pub fn write_case(
    m: usize,
    n: usize,
    costs: &[i64],
    supplies: &[u64],
    demands: &[u64],
    table: &[u64],
    tariff: &mut [u8],
    production: &mut [u8],
) -> Texts
    ensures { (p s f : ℕ) →
        CaseWritten (free_case m n costs.now supplies.now demands.now table.now p s f)
        tariff.old production.old tariff.new production.new result }
{
    if let Err(r) = test_case(m, n, costs, supplies, demands, table) {
        return Texts::Refused {
            number: r.cause.number(),
            place: r.place,
        };
    }
    let mut scrap = [0u8; 1];
    let t = put_tariff(&mut scrap, m, n, costs, supplies, demands);
    let p = put_production(&mut scrap, table);
    if tariff.len() < t {
        return Texts::Refused {
            number: 33,
            place: 0,
        };
    }
    if production.len() < p {
        return Texts::Refused {
            number: 33,
            place: 0,
        };
    }
    put_tariff(tariff, m, n, costs, supplies, demands);
    put_production(production, table);
    Texts::Written {
        tariff: t,
        production: p,
    }
}

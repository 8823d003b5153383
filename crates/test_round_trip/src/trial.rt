// One trial: a case written, read and written again.
use crate::draw::{Case, case_of};
use csv_case::case::{CaseShape, read_case};
use test_draws::slices::first;
use test_rewrite::{Files, stays};
use write_case::{Texts, write_case};

// Whether two files are read as a case.
fn is_case(tariff: &[u8], production: &[u8], c: &Case) -> bool {
    let mut costs = [0i64; 64];
    let mut supplies = [0u64; 8];
    let mut demands = [0u64; 8];
    let mut table = [0u64; 41];
    let answer = read_case(
        tariff,
        production,
        &mut costs,
        &mut supplies,
        &mut demands,
        &mut table,
    );
    let Ok(CaseShape { m, n, entries }) = answer else {
        return false;
    };
    first(&supplies, m) == first(&c.supplies, c.m)
        && first(&demands, n) == first(&c.demands, c.n)
        && first(&table, entries) == first(&c.table, c.entries)
        && first(&costs, c.lanes) == first(&c.costs, c.lanes)
}

// Whether a case comes back from its files, and its files from it.
fn comes_back(c: &Case) -> bool {
    let mut t = [0u8; 4096];
    let mut p = [0u8; 4096];
    let texts = write_case(
        c.m,
        c.n,
        first(&c.costs, c.lanes),
        first(&c.supplies, c.m),
        first(&c.demands, c.n),
        first(&c.table, c.entries),
        &mut t,
        &mut p,
    );
    let Texts::Written {
        tariff: a,
        production: b,
    } = texts
    else {
        return false;
    };
    let files = Files {
        tariff: first(&t, a),
        production: first(&p, b),
    };
    let mut again = [0u8; 4096];
    let mut other = [0u8; 4096];
    is_case(files.tariff, files.production, c) && stays(files, &mut again, &mut other)
}

// Runs 1,000 cases, and gives the last that does not come back, counted from 1; 0 where all do.
pub fn run_trials() -> u64 {
    let mut last: u64 = 0;
    for k in 0..1000 {
        if !comes_back(&case_of(20_260_101 + k * 7_654_321)) {
            last = k + 1;
        }
    }
    last
}

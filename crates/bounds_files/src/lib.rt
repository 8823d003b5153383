// From three files, a tariff and the low and the high entries of a production table, to what is printed of the splits.
#![tactic(auto)]

ghost use Rattle.std.specs.Prelude.{◌≡◌, min, ◌≤◌, length, take};
ghost use Rattle.csv_answers.specs.Bounds.{bounds_text, MarksFit};
ghost use Rattle.csv_case.specs.CaseFiles.{case_answer};
ghost use Rattle.plan_files.specs.Printed.{filed_case, Told};
ghost use Rattle.plan_files.specs.inner.StoredCase.{cut_case, Stored};
ghost use Rattle.bounds_files.specs.Bounded.{CasePrinted, HighPrinted, FilesPrinted, both_stand};

use bounds_splits::possible_splits;
use csv_answers::bounds::put_bounds;
use csv_case::case::read_case;
use csv_case::cells::{cost_cells, entry_cells, lane_ceilings, stop_cells};
use lent_case::Case;
use plan_files::planned::{Printed, print_refusal};

// Prints the two totals and the marks in the first count cells, of the splits from the first on.
fn print_known(
    out: &mut [u8],
    m: usize,
    n: usize,
    smallest: i64,
    largest: i64,
    first: u64,
    count: usize,
    answers: &[u64],
) -> Printed
    requires { (count ≤ length answers.now) × MarksFit first (take count answers.now) }
    ensures { Told 0 0 m n (bounds_text smallest largest first (take count answers.now)) out.old out.new result }
{
    let marks = &answers[..count];
    let length = put_bounds(out, smallest, largest, first, marks);
    Printed {
        length,
        number: 0,
        place: 0,
        sources: m,
        terminals: n,
    }
}

// Tells which splits of a lent case with least runs 0 can be the cheapest, and prints them or the refusal.
fn print_case(
    m: usize,
    n: usize,
    costs: &[i64],
    supplies: &[u64],
    demands: &[u64],
    ceilings: &[u64],
    low: &[u64],
    high: &[u64],
    out: &mut [u8],
) -> Printed
    ensures { CasePrinted
        (filed_case m n costs.now supplies.now demands.now ceilings.now low.now)
        high.now out.old out.new result }
{
    let mut answers = stop_cells();
    let case = Case {
        m,
        n,
        run1: 0,
        run2: 0,
        costs,
        supplies,
        demands,
        ceilings,
        table: low,
    };
    let answer = possible_splits(&case, high, &mut answers);
    match answer {
        Err(r) => print_refusal(out, r.cause.number(), r.place, m, n),
        Ok(k) => print_known(out, m, n, k.smallest, k.largest, k.first, k.count, &answers),
    }
}

// Cuts the stored case and the high table to what they have, and prints, with the ceiling 4,000 on every lane.
fn print_stored(
    m: usize,
    n: usize,
    entries: usize,
    more: usize,
    costs: &[i64],
    supplies: &[u64],
    demands: &[u64],
    low: &[u64],
    high: &[u64],
    out: &mut [u8],
) -> Printed
    requires { Stored costs.now supplies.now demands.now low.now × (length high.now ≡ 4002) }
    ensures { CasePrinted
        (cut_case m n entries costs.now supplies.now demands.now low.now)
        (take (min more 4002) high.now) out.old out.new result }
{
    let a = m.min(32);
    let b = n.min(64);
    let e = entries.min(4002);
    let f = more.min(4002);
    let lanes = a * b;
    let ceilings = lane_ceilings();
    print_case(
        m,
        n,
        &costs[..lanes],
        &supplies[..a],
        &demands[..b],
        &ceilings[..lanes],
        &low[..e],
        &high[..f],
        out,
    )
}

// Reads the high file beside the tariff, and prints what is answered of the stored case with it.
fn print_with_high(
    tariff: &[u8],
    high: &[u8],
    m: usize,
    n: usize,
    entries: usize,
    costs: &[i64],
    supplies: &[u64],
    demands: &[u64],
    low: &[u64],
    out: &mut [u8],
) -> Printed
    requires { Stored costs.now supplies.now demands.now low.now }
    ensures { HighPrinted tariff.now high.now
        (cut_case m n entries costs.now supplies.now demands.now low.now) out.old
        out.new result }
{
    let mut spare = [0i64; 1];
    let mut sources = [0u64; 1];
    let mut terminals = [0u64; 1];
    let mut highs = entry_cells();
    let answer = read_case(
        tariff,
        high,
        &mut spare,
        &mut sources,
        &mut terminals,
        &mut highs,
    );
    match answer {
        Err(r) => print_refusal(out, r.cause.number(), r.place, m, n),
        Ok(k) => print_stored(
            m, n, entries, k.entries, costs, supplies, demands, low, &highs, out,
        ),
    }
}

// Tells which splits of the case that the tariff and the low file are can be the cheapest with entries up to those of the high file, and
// prints them or the refusal as far as there is room.
pub fn bounds_files(tariff: &[u8], low: &[u8], high: &[u8], out: &mut [u8]) -> Printed
    ensures { FilesPrinted tariff.now low.now high.now out.old out.new result }
{
    let mut costs = cost_cells();
    let mut supplies = [0u64; 32];
    let mut demands = [0u64; 64];
    let mut lows = entry_cells();
    let answer = read_case(
        tariff,
        low,
        &mut costs,
        &mut supplies,
        &mut demands,
        &mut lows,
    );
    match answer {
        Err(r) => print_refusal(out, r.cause.number(), r.place, 0, 0),
        Ok(k) => print_with_high(
            tariff, high, k.m, k.n, k.entries, &costs, &supplies, &demands, &lows, out,
        ),
    }
}

// Whether the tariff and the low file are accepted by 20 to 22: a refusal by these is then about the high file.
pub fn low_stands(tariff: &[u8], low: &[u8]) -> bool
    ensures { result ≡ both_stand (case_answer tariff.now low.now) }
{
    let mut costs = [0i64; 1];
    let mut supplies = [0u64; 1];
    let mut demands = [0u64; 1];
    let mut table = [0u64; 1];
    read_case(
        tariff,
        low,
        &mut costs,
        &mut supplies,
        &mut demands,
        &mut table,
    )
    .is_ok()
}

// From two files to the printed plan.
ghost use Rattle.std.specs.Prelude.{◌*◌, ◌≤◌, length, take};
ghost use Rattle.csv_print.specs.Text.{plan_text, refusal_text};
ghost use Rattle.csv_print.specs.inner.Writing.{Fits};
ghost use Rattle.plan_files.specs.Printed.{filed_case, Told, CasePrinted, FilesPrinted};
ghost use Rattle.plan_files.specs.inner.StoredCase.{cut_case, Stored};

use csv_case::case::read_case;
use csv_case::cells::{
    cost_cells, entry_cells, freight_cells, lane_ceilings, lane_cells, stop_cells,
};
use csv_plan::put_plan;
use csv_print::put_refusal;
use lent_case::Case;

// What was printed: the text's length; 0, or the refusal's number and place; m and n of the case, 0 where a file is refused.
#[derive(Clone, Copy, Debug, PartialEq, Eq)]
pub struct Printed {
    pub length: usize,
    pub number: u64,
    pub place: u64,
    pub sources: usize,
    pub terminals: usize,
}

// Prints a refusal of a case of m sources and n terminals.
pub fn print_refusal(out: &mut [u8], number: u64, place: u64, m: usize, n: usize) -> Printed
    ensures { Told number place m n (refusal_text number place) out.old out.new result }
{
    let length = put_refusal(out, number, place);
    Printed {
        length,
        number,
        place,
        sources: m,
        terminals: n,
    }
}

// Prints the plan in the first m × n cells.
fn print_plan(
    out: &mut [u8],
    m: usize,
    n: usize,
    costs: &[i64],
    plan: &[u64],
    split: u64,
    entry: u64,
) -> Printed
    requires n_in_bounds { m * n ≤ length plan.now }
    requires fits { Fits m n costs.now (take (m * n) plan.now) }
    ensures { Told 0 0 m n (plan_text m n costs.now (take (m * n) plan.now) split «entry») out.old
        out.new result }
{
    let lanes = m * n;
    let amounts = &plan[..lanes];
    let length = put_plan(out, m, n, costs, amounts, split, entry);
    Printed {
        length,
        number: 0,
        place: 0,
        sources: m,
        terminals: n,
    }
}

// Plans a lent case with least runs 0, and prints the plan or the refusal.
fn print_case(
    m: usize,
    n: usize,
    costs: &[i64],
    supplies: &[u64],
    demands: &[u64],
    ceilings: &[u64],
    table: &[u64],
    out: &mut [u8],
) -> Printed
    ensures { CasePrinted
        (filed_case m n costs.now supplies.now demands.now ceilings.now table.now)
        out.old out.new result }
{
    let mut plan = lane_cells();
    let mut splits = stop_cells();
    let mut freights = freight_cells();
    let case = Case {
        m,
        n,
        run1: 0,
        run2: 0,
        costs,
        supplies,
        demands,
        ceilings,
        table,
    };
    let answer = planner::plan(&case, &mut plan, &mut splits, &mut freights);
    match answer {
        Err(r) => print_refusal(out, r.cause.number(), r.place, m, n),
        Ok(p) => {
            let at = p.split as usize;
            let entry = table[at];
            print_plan(out, m, n, costs, &plan, p.split, entry)
        }
    }
}

// Cuts the stored case to what it has, and prints its plan or its refusal, with the ceiling 4,000 on every lane.
fn print_stored(
    m: usize,
    n: usize,
    entries: usize,
    costs: &[i64],
    supplies: &[u64],
    demands: &[u64],
    table: &[u64],
    out: &mut [u8],
) -> Printed
    requires { Stored costs.now supplies.now demands.now table.now }
    ensures { CasePrinted
        (cut_case m n entries costs.now supplies.now demands.now table.now) out.old
        out.new result }
{
    let a = m.min(32);
    let b = n.min(64);
    let e = entries.min(4002);
    let lanes = a * b;
    let ceilings = lane_ceilings();
    print_case(
        m,
        n,
        &costs[..lanes],
        &supplies[..a],
        &demands[..b],
        &ceilings[..lanes],
        &table[..e],
        out,
    )
}

// Plans the case that the two files are, and prints the plan or the refusal as far as there is room.
pub fn plan_files(tariff: &[u8], production: &[u8], out: &mut [u8]) -> Printed
    ensures { FilesPrinted tariff.now production.now out.old out.new result }
{
    let mut costs = cost_cells();
    let mut supplies = [0u64; 32];
    let mut demands = [0u64; 64];
    let mut table = entry_cells();
    let answer = read_case(
        tariff,
        production,
        &mut costs,
        &mut supplies,
        &mut demands,
        &mut table,
    );
    match answer {
        Err(r) => print_refusal(out, r.cause.number(), r.place, 0, 0),
        Ok(k) => print_stored(
            k.m, k.n, k.entries, &costs, &supplies, &demands, &table, out,
        ),
    }
}

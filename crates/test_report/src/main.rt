// The report's example, 4.2, with the square-root rates as its production table: split, total, freight and count of stops, as planned.
#![tactic(auto)]

ghost use Rattle.std.specs.Prelude.{◌≡◌, pos, length};
ghost use Rattle.planner.specs.Answer.{outcome};
ghost use Rattle.problem.specs.Outcome.{planned};
ghost use Rattle.problem.specs.Plans.{stops};
ghost use Rattle.test_report.specs.Report.{report};

use lent_case::Case;
use planner::Planned;
use refusal::Refusal;
use std::io;

// Plans the example: split 180, total 2,161, freight 820.
fn answer() -> Result<Planned, Refusal>
    ensures { outcome result ≡ planned 180 (pos 2161) (pos 820) (length (stops report)) }
{
    let costs: [i64; 12] = [12, 1, 3, 4, 4, 9, 6, 2, 2, 6, 2, 10];
    let supplies: [u64; 3] = [200, 200, 150];
    let demands: [u64; 4] = [80, 180, 120, 70];
    let ceilings = [4_000u64; 12];
    let mut table = [0u64; 201];
    let _ = ratetable::fill(200, &mut table);
    let mut plan = [0u64; 12];
    let mut splits = [0u64; 201];
    let mut freights = [0i64; 201];
    let case = Case {
        m: 3,
        n: 4,
        run1: 0,
        run2: 0,
        costs: &costs,
        supplies: &supplies,
        demands: &demands,
        ceilings: &ceilings,
        table: &table,
    };
    planner::plan(&case, &mut plan, &mut splits, &mut freights)
}

fn main(rt: HostRuntime) -> io::Result<()> {
    match answer() {
        Ok(plan) => {
            let split = plan.split;
            let total = plan.total.unsigned_abs();
            let freight = plan.freight.unsigned_abs();
            let stops = plan.stops;
            print!(rt; "split,total,freight,stops\r\n{split},{total},{freight},{stops}\r\n")
        }
        Err(refusal) => {
            let number = refusal.cause.number();
            let place = refusal.place;
            print!(rt; "refusal,place\r\n{number},{place}\r\n")
        }
    }
}

// What callers outside Rattle are told of an answer: a number, a report and the worth. `yadvorkhul` alone calls these functions, after it has looked at the
// lengths of both: by a short one nothing may be planned.
#![tactic(auto)]

ghost use Rattle.std.specs.Prelude.{◌≡◌, ◌≤◌, length};
ghost use Rattle.transport.specs.Curve.{written};
ghost use Rattle.planner.specs.Answer.{outcome};
ghost use Rattle.export_reports.specs.Report.{number_of, report_of, worth_of};

use planner::Planned;
use refusal::Refusal;

pub mod bounds;
pub mod flow;

// Writes the report and the worth of an answer; its number.
pub fn tell(answer: Result<Planned, Refusal>, report: &mut [u64], worth: &mut [i64]) -> u64
    requires { (2 ≤ length report.old) × (2 ≤ length worth.old) }
    ensures { (result ≡ number_of (outcome answer)) × (report.new ≡ written (report_of (outcome answer)) report.old) ×
        (worth.new ≡ written (worth_of (outcome answer)) worth.old) }
{
    match answer {
        Ok(plan) => {
            report[0] = plan.split;
            report[1] = plan.stops as u64;
            worth[0] = plan.total;
            worth[1] = plan.freight;
            0
        }
        Err(refusal) => {
            report[0] = refusal.place;
            refusal.cause.number()
        }
    }
}

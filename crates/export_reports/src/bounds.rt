// What is told of the splits that can be the cheapest.
ghost use Rattle.std.specs.Prelude.{◌≡◌, ◌≤◌, length};
ghost use Rattle.transport.specs.Curve.{written};
ghost use Rattle.bounds_problem.specs.Answers.{outcome};
ghost use Rattle.export_reports.specs.Bounds.{number_of, report_of, worth_of};

use bounds_problem::Known;
use refusal::Refusal;

// Writes the report and the worth of an answer; its number.
pub fn tell_bounds(answer: Result<Known, Refusal>, report: &mut [u64], worth: &mut [i64]) -> u64
    requires { (2 ≤ length report.old) × (2 ≤ length worth.old) }
    ensures { (result ≡ number_of (outcome answer)) × (report.new ≡ written (report_of (outcome answer)) report.old) ×
        (worth.new ≡ written (worth_of (outcome answer)) worth.old) }
{
    match answer {
        Ok(known) => {
            report[0] = known.first;
            report[1] = known.count as u64;
            worth[0] = known.smallest;
            worth[1] = known.largest;
            0
        }
        Err(refusal) => {
            report[0] = refusal.place;
            refusal.cause.number()
        }
    }
}

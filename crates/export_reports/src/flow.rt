// What is told of the least-cost flow of a network.
ghost use Rattle.std.specs.Prelude.{◌≡◌, ◌≤◌, length};
ghost use Rattle.transport.specs.Curve.{written};
ghost use Rattle.flow_network.specs.Answer.{outcome, count_in};
ghost use Rattle.export_reports.specs.Flow.{number_of, report_of, worth_of};

use flow_network::Carried;
use refusal::Refusal;

// Writes the report and the worth of an answer; its number.
pub fn tell_flow(answer: Result<Carried, Refusal>, report: &mut [u64], worth: &mut [i64]) -> u64
    requires { (1 ≤ length report.old) × (1 ≤ length worth.old) }
    ensures { (result ≡ number_of (outcome answer)) ×
        (report.new ≡ written (report_of (count_in answer) (outcome answer)) report.old) ×
        (worth.new ≡ written (worth_of (outcome answer)) worth.old) }
{
    match answer {
        Ok(flow) => {
            report[0] = flow.arcs;
            worth[0] = flow.total;
            0
        }
        Err(refusal) => {
            report[0] = refusal.place;
            refusal.cause.number()
        }
    }
}

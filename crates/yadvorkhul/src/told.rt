// What a caller is told of a verdict.
ghost use Rattle.std.specs.Prelude.{◌≡◌, ◌≤◌, length};
ghost use Rattle.transport.specs.Curve.{written};
ghost use Rattle.validation.specs.Verdict.{verdict};
ghost use Rattle.yadvorkhul.specs.Work.{verdict_number, verdict_report};

use refusal::Refusal;

// Writes the place of a refusal; its number, or 0.
pub fn tell_verdict(told: Result<(), Refusal>, report: &mut [u64]) -> u64
    requires { 2 ≤ length report.old }
    ensures { (result ≡ verdict_number (verdict told)) × (report.new ≡ written (verdict_report (verdict told)) report.old) }
{
    match told {
        Ok(()) => 0,
        Err(refusal) => {
            report[0] = refusal.place;
            refusal.cause.number()
        }
    }
}

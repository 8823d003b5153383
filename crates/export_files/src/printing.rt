// From files to what the programs print of them. Each function answers 0, or the number of the refusal. The text goes to the front of a lent
// slice as far as there is room; the report's first cells get its length and the refusal's place, 0 where there is none. Where the report has
// fewer than two cells the answer is 34, and nothing is done.
ghost use Rattle.std.specs.Prelude.{◌≡◌, [], ◌∷◌, ◌≤◌, length};
ghost use Rattle.transport.specs.Curve.{written};
ghost use Rattle.export_files.specs.Printing.{PlanFilesExported, BoundsFilesExported, FlowFilesExported};

use plan_files::planned::Printed;

// Writes the length and the place; the number.
fn tell_printed(printed: Printed, report: &mut [u64]) -> u64
    requires { 2 ≤ length report.old }
    ensures { (result ≡ printed.number) × (report.new ≡ written (printed.length ∷ printed.place ∷ []) report.old) }
{
    report[0] = printed.length as u64;
    report[1] = printed.place;
    printed.number
}

// The printed plan of a tariff and a production file, or the refusal.
pub fn plan_text(tariff: &[u8], production: &[u8], text: &mut [u8], report: &mut [u64]) -> u64
    ensures { PlanFilesExported tariff.now production.now text.old text.new
        report.old report.new result }
{
    if report.len() < 2 {
        return 34;
    }
    let printed = plan_files::planned::plan_files(tariff, production, text);
    tell_printed(printed, report)
}

// Which splits can be the cheapest, printed, of a tariff and the files of the low and the high entries, or the refusal.
pub fn bounds_text(
    tariff: &[u8],
    low: &[u8],
    high: &[u8],
    text: &mut [u8],
    report: &mut [u64],
) -> u64
    ensures { BoundsFilesExported tariff.now low.now high.now text.old text.new
        report.old report.new result }
{
    if report.len() < 2 {
        return 34;
    }
    let printed = bounds_files::bounds_files(tariff, low, high, text);
    tell_printed(printed, report)
}

// The least-cost flow, printed, of a network file, the text that names an arc and the file of its table, or the refusal.
pub fn flow_text(
    network: &[u8],
    arc: &[u8],
    table: &[u8],
    text: &mut [u8],
    report: &mut [u64],
) -> u64
    ensures { FlowFilesExported network.now arc.now table.now text.old text.new
        report.old report.new result }
{
    if report.len() < 2 {
        return 34;
    }
    let printed = flow_files::flow_files(network, arc, table, text);
    tell_printed(printed, report)
}

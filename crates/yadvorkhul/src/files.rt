// The functions from the bytes of files, for callers outside Rattle: bytes, numbers and slices only. Each answers 0, or the number of the refusal.
ghost use Rattle.planner.specs.Judge.{free_case};
ghost use Rattle.export_files.specs.Printing.{PlanFilesExported, BoundsFilesExported, FlowFilesExported};
ghost use Rattle.export_files.specs.Writing.{WriteExported, RewriteExported};
ghost use Rattle.export_files.specs.Reading.{ReadExported, EntriesExported};

// Reads the case of a tariff and a production file into lent slices. The report, of at least three cells, gets m, n and the count of entries, or
// the refusal's place and the file that it is about: 1 the tariff, 2 the production file, 0 neither.
#[unsafe(no_mangle)]
pub extern "C" fn yadvorkhul_read_case(
    tariff: &[u8],
    production: &[u8],
    costs: &mut [i64],
    supplies: &mut [u64],
    demands: &mut [u64],
    table: &mut [u64],
    report: &mut [u64],
) -> u64
    ensures { ReadExported tariff.now production.now costs.old supplies.old
        demands.old table.old costs.new supplies.new demands.new table.new
        report.old report.new result }
{
    export_files::reading::read_files(tariff, production, costs, supplies, demands, table, report)
}

// Reads a production file alone. The report gets the count of entries, or the refusal's place.
#[unsafe(no_mangle)]
pub extern "C" fn yadvorkhul_read_table(
    production: &[u8],
    table: &mut [u64],
    report: &mut [u64],
) -> u64
    ensures { EntriesExported production.now table.old table.new report.old report.new result }
{
    export_files::reading::read_table_file(production, table, report)
}

// Prints the plan of two files, or the refusal, into a lent slice. The report gets the text's length and the refusal's place.
#[unsafe(no_mangle)]
pub extern "C" fn yadvorkhul_plan_files(
    tariff: &[u8],
    production: &[u8],
    text: &mut [u8],
    report: &mut [u64],
) -> u64
    ensures { PlanFilesExported tariff.now production.now text.old text.new
        report.old report.new result }
{
    export_files::printing::plan_text(tariff, production, text, report)
}

// Prints which splits can be the cheapest, of a tariff and the files of the low and the high entries; the rest as for two files.
#[unsafe(no_mangle)]
pub extern "C" fn yadvorkhul_bounds_files(
    tariff: &[u8],
    low: &[u8],
    high: &[u8],
    text: &mut [u8],
    report: &mut [u64],
) -> u64
    ensures { BoundsFilesExported tariff.now low.now high.now text.old text.new
        report.old report.new result }
{
    export_files::printing::bounds_text(tariff, low, high, text, report)
}

// Prints the least-cost flow of a network file, where a table file replaces the cost of the arc that a text names; the rest as for two files.
#[unsafe(no_mangle)]
pub extern "C" fn yadvorkhul_flow_files(
    network: &[u8],
    arc: &[u8],
    table: &[u8],
    text: &mut [u8],
    report: &mut [u64],
) -> u64
    ensures { FlowFilesExported network.now arc.now table.now text.old text.new
        report.old report.new result }
{
    export_files::printing::flow_text(network, arc, table, text, report)
}

// Writes a lent case out as its two files. The report gets both lengths, or the refusal's place.
#[unsafe(no_mangle)]
pub extern "C" fn yadvorkhul_write_case(
    m: usize,
    n: usize,
    costs: &[i64],
    supplies: &[u64],
    demands: &[u64],
    table: &[u64],
    tariff: &mut [u8],
    production: &mut [u8],
    report: &mut [u64],
) -> u64
    ensures { WriteExported
        (free_case m n costs.now supplies.now demands.now table.now 2048 4001 4001)
        tariff.old production.old tariff.new production.new report.old report.new
        result }
{
    export_files::writing::write_texts(
        m, n, costs, supplies, demands, table, tariff, production, report,
    )
}

// Writes the case of two files as two new ones in the one form of their case; the rest as for a lent case.
#[unsafe(no_mangle)]
pub extern "C" fn yadvorkhul_tidy_files(
    tariff: &[u8],
    production: &[u8],
    new_tariff: &mut [u8],
    new_production: &mut [u8],
    report: &mut [u64],
) -> u64
    ensures { RewriteExported tariff.now production.now new_tariff.old
        new_production.old new_tariff.new new_production.new report.old report.new result }
{
    export_files::writing::rewrite_texts(tariff, production, new_tariff, new_production, report)
}

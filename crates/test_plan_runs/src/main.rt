// Further stored runs of the command `plan`, one after the other; `stdout` has what each prints.
#![tactic(auto)]

use plan_command::file::plan_paths;
use std::io;

fn main(rt: HostRuntime) -> io::Result<()> {
    // Two files that the arguments name: the report's example with a production table of zeros.
    plan_command::run(&rt)?;
    // Case A with unit costs of -2 from source 1 to terminal 1 and, in quotes, -7 from source 3 to terminal 2.
    plan_paths(&rt, b"rebate/tariff.csv", b"rebate/production.csv")?;
    // Case A with the item code 00412 for the first demand, refused at its first 0.
    plan_paths(&rt, b"code/tariff.csv", b"code/production.csv")?;
    // Case A with an entry of 1,000,000,001 at split 2.
    plan_paths(&rt, b"refused/tariff.csv", b"refused/production.csv")?;
    // Case A with the entries 99, 20, 20, 22, a table that is not concave, whose least total is at split 2.
    plan_paths(&rt, b"rounded/tariff.csv", b"rounded/production.csv")?;
    // Files of which the second is missing: refusal 20.
    plan_paths(&rt, b"missing/tariff.csv", b"missing/production.csv")?;
    // A production file of 65,536 bytes, the longest that is read, with more than 4,001 records: refusal 6.
    plan_paths(&rt, b"rebate/tariff.csv", b"long/fits.csv")?;
    // One of 65,537 bytes, in the place of each file: refusal 20.
    plan_paths(&rt, b"rebate/tariff.csv", b"long/longer.csv")?;
    plan_paths(&rt, b"long/longer.csv", b"rebate/production.csv")?;
    // A directory in the place of each file, which opens and cannot be read: refusal 20.
    plan_paths(&rt, b"folder", b"rebate/production.csv")?;
    plan_paths(&rt, b"rebate/tariff.csv", b"folder")
}

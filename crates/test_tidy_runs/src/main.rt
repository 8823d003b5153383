// Further stored runs of the command `tidy`, one after the other, each with its two new files written to standard output behind it.
#![tactic(auto)]

use plan_command::rewriting::{show_path, tidy_paths};
use std::io;

// Runs `tidy` on a case, and shows the new files.
fn tidy_and_show(
    rt: &HostRuntime,
    tariff: &[u8],
    production: &[u8],
    new_tariff: &[u8],
    new_production: &[u8],
) -> io::Result<()> {
    tidy_paths(rt, tariff, production, new_tariff, new_production)?;
    show_path(rt, new_tariff)?;
    show_path(rt, new_production)
}

// A case whose entry at split 2 is too high: no file is made.
fn refused(rt: &HostRuntime) -> io::Result<()> {
    tidy_and_show(
        rt,
        b"refused/tariff.csv",
        b"refused/production.csv",
        b"new_tariff.csv",
        b"new_production.csv",
    )
}

// An input as the second new file: no file is written over, and the first is not left.
fn taken(rt: &HostRuntime) -> io::Result<()> {
    tidy_and_show(
        rt,
        b"taken/tariff.csv",
        b"taken/production.csv",
        b"new_tariff.csv",
        b"taken/production.csv",
    )
}

// A case with a rebate and with 0.
fn shown(rt: &HostRuntime) -> io::Result<()> {
    tidy_and_show(
        rt,
        b"shown/tariff.csv",
        b"shown/production.csv",
        b"new_tariff.csv",
        b"new_production.csv",
    )
}

// A production file of 65,536 bytes, one of 65,537 and a directory: refusals 6, 20 and 20, and no file is made.
fn long(rt: &HostRuntime) -> io::Result<()> {
    tidy_and_show(
        rt,
        b"shown/tariff.csv",
        b"long/fits.csv",
        b"long_tariff.csv",
        b"long_production.csv",
    )?;
    tidy_and_show(
        rt,
        b"long/longer.csv",
        b"shown/production.csv",
        b"long_tariff.csv",
        b"long_production.csv",
    )?;
    tidy_and_show(
        rt,
        b"shown/tariff.csv",
        b"folder",
        b"long_tariff.csv",
        b"long_production.csv",
    )
}

// New files whose names have a comma and a quote: they are told as fields of RFC 4180.
fn quoted(rt: &HostRuntime) -> io::Result<()> {
    tidy_paths(
        rt,
        b"shown/tariff.csv",
        b"shown/production.csv",
        b"new,tariff.csv",
        b"new\"production.csv",
    )
}

// The arguments: a case, a new file, and the word for help beside them. Both commands write nothing to standard output, and no file is made.
fn main(rt: HostRuntime) -> io::Result<()> {
    plan_command::run(&rt)?;
    plan_command::tidy(&rt)?;
    show_path(&rt, b"help_tariff.csv")?;
    refused(&rt)?;
    taken(&rt)?;
    shown(&rt)?;
    long(&rt)?;
    quoted(&rt)
}

// The command `flow`: reads a DIMACS network file and the table of the arc that is named, writes the cheapest flow, or the refusal, to standard
// output, and says what a refusal means on standard error.
#![tactic(auto)]

ghost use Rattle.std.specs.Prelude.{◌≡◌, length};

use file_causes::sentence::explain_file;
use file_io::about::told_version;
use file_io::arguments::{argument, argument_count, argument_room, is_help};
use file_io::file::{file_room, first, read_file};
use file_io::message::{say, say_name, say_with};
use flow_files::flow_files;
use network_causes::form::say_line_cause;
use network_causes::limits::say_limits_cause;
use plan_files::planned::Printed;
use std::io;

// Room for the longest text: two headers, the total and 64 arcs.
fn text_room() -> [u8; 5662]
    ensures { 5662 ≡ length result }
{
    [0; 5662]
}

// Writes the usage text to standard error.
fn usage(err: &impl Print) -> io::Result<()> {
    say(err, b"usage: flow NETWORK ARC TABLE\n")?;
    say(
        err,
        b"Gives the least-cost flow of a DIMACS minimum-cost flow file, NETWORK, where a table replaces the cost of one arc.\n",
    )?;
    say(
        err,
        b"ARC is that arc's place among the a lines, from 1; TABLE is a CSV file with an entry for each flow on it, from 0 to its capacity.\n",
    )?;
    say(
        err,
        b"Writes the total and a record for each arc, or a refusal with its place, to standard output.\n",
    )
}

// Refusal 30: what is out of the limits.
fn explain_limits(
    err: &impl Print,
    network: &[u8],
    arc: &[u8],
    table: &[u8],
    path: &[u8],
) -> io::Result<()> {
    say(err, b"Refusal 30: the network file ")?;
    say_name(err, path)?;
    say(
        err,
        b", the named arc or the table is outside the limits: there is ",
    )?;
    say_limits_cause(err, network, arc, table)?;
    say(err, b".\n")
}

// Refusal 29: the line, and what is wrong with it.
fn explain_line(err: &impl Print, line: u64, network: &[u8], path: &[u8]) -> io::Result<()> {
    say_with(err, b"Refusal 29: line ", line, b" of the network file ")?;
    say_name(err, path)?;
    say(err, b" is not of the form: ")?;
    say_line_cause(err, network, line)?;
    say(err, b".\n")
}

// Refusals 20 to 22: the network file is judged by 20 alone, and first.
fn explain_table(
    err: &impl Print,
    number: u64,
    place: u64,
    network: &[u8],
    table: &[u8],
    network_path: &[u8],
    table_path: &[u8],
) -> io::Result<()> {
    say_with(err, b"Refusal ", number, b": ")?;
    if 65_536 < network.len() {
        return explain_file(
            err,
            number,
            place,
            false,
            b"the network file ",
            network_path,
            network,
            1,
        );
    }
    explain_file(
        err,
        number,
        place,
        false,
        b"the table file ",
        table_path,
        table,
        1,
    )
}

// Says what a refusal means; nothing of a flow.
fn explain_flow(
    err: &impl Print,
    printed: Printed,
    network: &[u8],
    arc: &[u8],
    table: &[u8],
    network_path: &[u8],
    table_path: &[u8],
) -> io::Result<()> {
    let number = printed.number;
    let place = printed.place;
    match number {
        0 => Ok(()),
        27 => say(
            err,
            b"Refusal 27: no flow exists; the supplies do not sum to 0, or the arcs cannot carry them.\n",
        ),
        29 => explain_line(err, place, network, network_path),
        30 => explain_limits(err, network, arc, table, network_path),
        _ => explain_table(err, number, place, network, table, network_path, table_path),
    }
}

// Answers two files' bytes and the text that names the arc.
fn answer(
    rt: &HostRuntime,
    network: &[u8],
    arc: &[u8],
    table: &[u8],
    network_path: &[u8],
    table_path: &[u8],
) -> io::Result<()> {
    let err = rt.stderr();
    let mut text = text_room();
    let printed = flow_files(network, arc, table, &mut text);
    let length = printed.length;
    if rt.write_all(first(&text, length)).is_err() {
        say(&err, b"Standard output could not be written.\n")?;
    }
    explain_flow(&err, printed, network, arc, table, network_path, table_path)
}

// Answers the files of two paths.
pub fn answer_paths(
    rt: &HostRuntime,
    network_path: &[u8],
    arc: &[u8],
    table_path: &[u8],
) -> io::Result<()> {
    let mut network = file_room();
    let mut table = file_room();
    let n = read_file(rt, network_path, &mut network);
    let t = read_file(rt, table_path, &mut table);
    answer(
        rt,
        first(&network, n),
        arc,
        first(&table, t),
        network_path,
        table_path,
    )
}

// Answers the files and the arc, unless one is the word for help.
// Stays: `bounds` has the same three lines. One function for both takes the usage text and the answer as closures and requires that each can be called: longer.
fn answer_or_help(rt: &HostRuntime, network: &[u8], arc: &[u8], table: &[u8]) -> io::Result<()> {
    if is_help(network) || is_help(arc) || is_help(table) {
        return usage(&rt.stderr());
    }
    answer_paths(rt, network, arc, table)
}

// Answers the files and the arc that the three arguments name.
// Stays: as above. The rooms are lent, so one function for both takes what is done with three arguments as a closure.
fn with_arguments(rt: &HostRuntime) -> io::Result<()> {
    let mut network = argument_room();
    let mut arc = argument_room();
    let mut table = argument_room();
    let n = argument(rt, 1, &mut network);
    let a = argument(rt, 2, &mut arc);
    let t = argument(rt, 3, &mut table);
    answer_or_help(rt, first(&network, n), first(&arc, a), first(&table, t))
}

// Answers what three arguments name.
pub fn run(rt: &HostRuntime) -> io::Result<()> {
    if told_version(rt, b"flow")? {
        return Ok(());
    }
    match argument_count(rt) {
        4 => with_arguments(rt),
        _ => usage(&rt.stderr()),
    }
}

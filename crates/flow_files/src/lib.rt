// From a network file, the text that names an arc, and the file of that arc's table to what is printed of the cheapest flow.
#![tactic(auto)]

ghost use Rattle.std.specs.Prelude.{◌≡◌};
ghost use Rattle.plan_files.specs.Printed.{Told};
ghost use Rattle.flow_problem.specs.Answer.{refused};
ghost use Rattle.dimacs.specs.Form.{form_of};
ghost use Rattle.flow_files.specs.Printing.{place_of, form_then, RefusalPrinted, NetworkPrinted, TablePrinted, FilesPrinted};
ghost use Rattle.flow_files.specs.inner.ArcCells.{FormedIs, ArcsCut, cut_text};

use csv_answers::flow::put_flow;
use csv_case::case::read_entries;
use csv_case::cells::entry_cells;
use dimacs::store::{Reading, read_file};
use flow_network::cheapest_flow;
use numbers::read_short;
use plan_files::planned::{Printed, print_refusal};
use refusal::Refusal;

// The place of the arc that a text of one to four digits names; 0, which is none, of any other text.
fn read_place(text: &[u8]) -> usize
    ensures { result ≡ place_of text.now }
{
    match read_short(text) {
        Some(place) => place as usize,
        None => 0,
    }
}

// Refuses a network file of which a line is not of the form.
fn check_form(network: &[u8]) -> Result<Reading, Refusal>
    ensures { FormedIs network.now result }
{
    let mut starts = [0u64; 64];
    let mut ends = [0u64; 64];
    let mut ceilings = [0u64; 64];
    let mut costs = [0i64; 64];
    let mut gives = [0u64; 32];
    let mut takes = [0u64; 32];
    let mut marks = [0u64; 32];
    read_file(
        network,
        &mut starts,
        &mut ends,
        &mut ceilings,
        &mut costs,
        &mut gives,
        &mut takes,
        &mut marks,
    )
}

// The table file is refused. Prints that, unless the network file is not of the form, which comes first.
fn print_refused(network: &[u8], number: u64, place: u64, out: &mut [u8]) -> Printed
    ensures { RefusalPrinted (form_then (form_of network.now) (refused number place)) out.old out.new result }
{
    let formed = check_form(network);
    match formed {
        Err(wrong) => print_refusal(out, wrong.cause.number(), wrong.place, 0, 0),
        Ok(_) => print_refusal(out, number, place, 0, 0),
    }
}

// Prints the flow on the first count arcs.
fn print_flow(
    out: &mut [u8],
    total: i64,
    count: usize,
    place: usize,
    table: &[u64],
    flow: &[u64],
    starts: &[u64],
    ends: &[u64],
    costs: &[i64],
) -> Printed
    requires { ArcsCut count place table.now flow.now starts.now ends.now costs.now }
    ensures { Told 0 0 0 0
        (cut_text total count place table.now flow.now starts.now ends.now costs.now)
        out.old out.new result }
{
    let named = place - 1;
    let at = flow[named] as usize;
    let charge = table[at];
    let length = put_flow(
        out,
        total,
        named,
        charge,
        &starts[..count],
        &ends[..count],
        &flow[..count],
        &costs[..count],
    );
    Printed {
        length,
        number: 0,
        place: 0,
        sources: 0,
        terminals: 0,
    }
}

// Asks for the cheapest flow of a network file, and prints it or the refusal.
fn print_network(network: &[u8], place: usize, table: &[u64], out: &mut [u8]) -> Printed
    ensures { NetworkPrinted network.now place table.now out.old out.new result }
{
    let mut flow = [0u64; 64];
    let mut starts = [0u64; 64];
    let mut ends = [0u64; 64];
    let mut ceilings = [0u64; 64];
    let mut costs = [0i64; 64];
    let answer = cheapest_flow(
        network,
        place,
        table,
        &mut flow,
        &mut starts,
        &mut ends,
        &mut ceilings,
        &mut costs,
    );
    match answer {
        Err(r) => print_refusal(out, r.cause.number(), r.place, 0, 0),
        Ok(k) => print_flow(
            out,
            k.total,
            k.arcs as usize,
            place,
            table,
            &flow,
            &starts,
            &ends,
            &costs,
        ),
    }
}

// Reads the table file, and prints what is answered of the network file with it.
fn print_with_table(network: &[u8], arc: &[u8], table: &[u8], out: &mut [u8]) -> Printed
    ensures { TablePrinted network.now arc.now table.now out.old out.new result }
{
    let mut entries = entry_cells();
    let answer = read_entries(table, &mut entries);
    match answer {
        Err(r) => print_refused(network, r.cause.number(), r.place, out),
        Ok(read) => {
            let kept = read.min(4002);
            let place = read_place(arc);
            print_network(network, place, &entries[..kept], out)
        }
    }
}

// Gives the cheapest flow of the network in a file, where the table of another file replaces the cost of the arc that a text names by its place
// from 1, and prints it or the refusal as far as there is room.
pub fn flow_files(network: &[u8], arc: &[u8], table: &[u8], out: &mut [u8]) -> Printed
    ensures { FilesPrinted network.now arc.now table.now out.old out.new result }
{
    if 65_536 < network.len() {
        return print_refusal(out, 20, 0, 0, 0);
    }
    print_with_table(network, arc, table, out)
}

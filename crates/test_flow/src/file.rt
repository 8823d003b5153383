// A network as a DIMACS file, as far as there is room.
use crate::brute::Network;
use test_draws::slices::at;

// Writes a byte, and gives the next offset.
fn put(out: &mut [u8], next: usize, b: u8) -> usize {
    if next < out.len() {
        out[next] = b;
        return next + 1;
    }
    next
}

// Writes the tens of a number below 100, if it has any.
fn put_tens(out: &mut [u8], next: usize, n: u64) -> usize {
    if n < 10 {
        return next;
    }
    put(out, next, b'0' + (n / 10 % 10) as u8)
}

// Writes a number below 100 and the byte after it.
fn put_number(out: &mut [u8], next: usize, n: u64, b: u8) -> usize {
    let last = put_tens(out, next, n);
    let end = put(out, last, b'0' + (n % 10) as u8);
    put(out, end, b)
}

// Writes an integer that is raised, and the end of the line.
fn put_raised(out: &mut [u8], next: usize, n: u64, raised: u64) -> usize {
    if n < raised {
        let digits = put(out, next, b'-');
        return put_number(out, digits, raised - n, b'\n');
    }
    put_number(out, next, n - raised, b'\n')
}

// Writes a letter and a space.
fn put_letter(out: &mut [u8], next: usize, b: u8) -> usize {
    let space = put(out, next, b);
    put(out, space, b' ')
}

// Writes the p line.
fn put_problem(out: &mut [u8], nodes: u64, arcs: u64) -> usize {
    let m = put_letter(out, 0, b'p');
    let i = put(out, m, b'm');
    let n = put(out, i, b'i');
    let first = put_letter(out, n, b'n');
    let second = put_number(out, first, nodes, b' ');
    put_number(out, second, arcs, b'\n')
}

// Writes the n line of a node; none where the supply is 0.
fn put_node(out: &mut [u8], next: usize, id: u64, supply: u64) -> usize {
    if supply == 20 {
        return next;
    }
    let first = put_letter(out, next, b'n');
    let second = put_number(out, first, id, b' ');
    put_raised(out, second, supply, 20)
}

fn put_nodes(out: &mut [u8], start: usize, supplies: &[u64]) -> usize {
    let mut next = start;
    for (i, supply) in supplies.iter().enumerate() {
        next = put_node(out, next, (i as u64).saturating_add(1), *supply);
    }
    next
}

// Writes an a line.
fn put_arc(out: &mut [u8], next: usize, start: u64, end: u64, ceiling: u64, cost: u64) -> usize {
    let first = put_letter(out, next, b'a');
    let second = put_number(out, first, start, b' ');
    let third = put_number(out, second, end, b' ');
    let fourth = put_number(out, third, 0, b' ');
    let fifth = put_number(out, fourth, ceiling, b' ');
    put_raised(out, fifth, cost, 4)
}

fn put_arcs(out: &mut [u8], from: usize, net: &Network) -> usize {
    let mut next = from;
    for (k, start) in net.starts.iter().enumerate() {
        let ceiling = at(net.ceilings, k);
        next = put_arc(
            out,
            next,
            *start,
            at(net.ends, k),
            ceiling,
            at(net.costs, k),
        );
    }
    next
}

// Writes the file, and gives its length.
pub fn write_network(out: &mut [u8], net: &Network) -> usize {
    let nodes = put_problem(out, net.supplies.len() as u64, net.starts.len() as u64);
    let arcs = put_nodes(out, nodes, net.supplies);
    put_arcs(out, arcs, net)
}

// Draws the parts of a small network. Unit costs are raised by 4 and supplies by 20, so that none is below 0.
use crate::brute::at_node;
use test_draws::slices::at;
use test_draws::{below, draw_each};

// Draws for each start an end, another of the nodes 1 to n.
pub fn draw_ends(seed: u64, nodes: u64, starts: &[u64], ends: &mut [u64]) -> u64 {
    draw_each(seed, ends, |k, x| {
        let on = at(starts, k).saturating_add(below(x, nodes.saturating_sub(1)));
        below(on % 65_536 * 8, nodes).saturating_add(1)
    })
}

// Draws an amount within each ceiling.
pub fn draw_amounts(seed: u64, ceilings: &[u64], to: &mut [u64]) -> u64 {
    draw_each(seed, to, |k, x| below(x, at(ceilings, k).saturating_add(1)))
}

// The supplies with which these amounts are a flow.
pub fn fill_supplies(starts: &[u64], ends: &[u64], amounts: &[u64], to: &mut [u64]) {
    for (i, supply) in to.iter_mut().enumerate() {
        let id = (i as u64).saturating_add(1);
        *supply = at_node(starts, id, amounts)
            .saturating_add(20)
            .saturating_sub(at_node(ends, id, amounts));
    }
}

// Of one network in four, moves one unit of supply from the second node to the first; of another, adds one to the first.
pub fn disturb(seed: u64, to: &mut [u64; 4]) {
    let kind = below(seed, 4);
    if kind < 2 {
        to[0] = to[0].saturating_add(1);
    }
    if kind == 1 {
        to[1] = to[1].saturating_sub(1);
    }
}

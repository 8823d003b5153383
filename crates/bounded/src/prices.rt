// The prices of the lanes: their unit costs, with a fine for each drum above the ceiling where they are full or closed.
ghost use Rattle.std.specs.Prelude.{◌≡◌, ◌<◌, ◌≤◌, length};

use super::residuals::above;
use simplex::potentials::Potentials;
use spanningtree::tree::Tree;

// The fine; the price of each lane: its unit cost, with the fine where it is full or closed; and the full lanes of each source, a bit for each.
#[derive(Drop)]
pub struct Lanes {
    pub fine: u32,
    pub price: [u32; 2048],
    pub full: [u64; 32],
}

// The dearest and the cheapest unit cost.
#[derive(Drop)]
struct Span {
    most: u32,
    least: u32,
}

// The span with the unit costs of the source whose row begins at k.
fn row_span(k: usize, n: usize, all: Span, cost: &[u32; 2048]) -> Span
    requires { (k ≤ 1984) × (n ≤ 64) }
{
    let mut most = all.most;
    let mut least = all.least;
    for j in 0..n {
        let c = cost[k + j];
        most = u32::max(most, c);
        least = u32::min(least, c);
    }
    Span { most, least }
}

// What each drum above a ceiling is to cost besides: twice what unit costs differ by, so that few ways round are dearer, and potentials with a few such
// lanes on the way are still below 2^25.
pub fn fine_for(m: usize, n: usize, cost: &[u32; 2048]) -> u32
    requires { (m ≤ 32) × (n ≤ 64) }
{
    let mut all = Span {
        most: 0,
        least: 2_000_000,
    };
    for i in 0..m {
        all = row_span(i * 64, n, all, cost);
    }
    all.most.wrapping_sub(all.least) % 4_194_304 * 2 + 100
}

// The fine where the ceiling is 0.
fn closed(ceiling: u32, fine: u32) -> u32 {
    if ceiling == 0 { fine } else { 0 }
}

// The closed lanes of the source whose row begins at k cost a fine.
fn close_row(k: usize, n: usize, fine: u32, cap: &[u32; 2048], price: &mut [u32; 2048])
    requires { (k ≤ 1984) × (n ≤ 64) }
{
    for j in 0..n {
        price[k + j] = price[k + j].wrapping_add(closed(cap[k + j], fine));
    }
}

// The closed lanes of all sources do.
fn close_lanes(m: usize, n: usize, fine: u32, cap: &[u32; 2048], price: &mut [u32; 2048])
    requires { (m ≤ 32) × (n ≤ 64) }
{
    for i in 0..m {
        close_row(i * 64, n, fine, cap, price);
    }
}

// The prices of full and closed lanes grow.
fn grow(more: u32, cost: &[u32; 2048], price: &mut [u32; 2048]) {
    for k in 0..2048 {
        price[k] = if price[k] == cost[k] {
            price[k]
        } else {
            price[k].wrapping_add(more)
        };
    }
}

impl Lanes {
    // The closed lanes cost the fine.
    pub fn close(&mut self, m: usize, n: usize, cap: &[u32; 2048])
        requires { (m ≤ 32) × (n ≤ 64) }
        ensures fine { self.new.fine ≡ self.old.fine }
        ensures full { self.new.full ≡ self.old.full }
    {
        close_lanes(m, n, self.fine, cap, &mut self.price);
    }

    // Lane k is full from now on.
    pub fn fill(&mut self, k: usize, cost: &[u32; 2048], cap: &[u32; 2048])
        requires { k < 2048 }
        ensures { self.new.fine ≡ self.old.fine }
    {
        let i = k / 64;
        self.price[k] = cost[k].wrapping_add(self.fine);
        if 0 < cap[k] {
            self.full[i] = self.full[i] | (1u64 << k % 64);
        }
    }

    // Lane k is no longer noted as full; its price stays.
    pub fn unfill(&mut self, k: usize)
        requires { k < 2048 }
        ensures fine { self.new.fine ≡ self.old.fine }
        ensures price { self.new.price ≡ self.old.price }
    {
        let i = k / 64;
        self.full[i] = self.full[i] & (u64::MAX ^ (1u64 << k % 64));
    }

    // Lane k is no longer full: its price is its unit cost.
    pub fn empty(&mut self, k: usize, cost: &[u32; 2048])
        requires { k < 2048 }
        ensures { self.new.fine ≡ self.old.fine }
    {
        self.price[k] = cost[k];
        self.unfill(k);
    }

    // The fine grows, and the prices with it.
    pub fn raise_fine(&mut self, more: u32, cost: &[u32; 2048])
        ensures { self.new.full ≡ self.old.full }
    {
        self.fine = self.fine.wrapping_add(more);
        grow(more, cost, &mut self.price);
    }
}

// After the fine has grown: the potentials below each lane of the tree that is above its ceiling follow.
pub fn follow_fine(more: u32, tree: &Tree, residual: &[u64; 128], potentials: &mut Potentials) {
    let less = 0u32.wrapping_sub(more);
    for v in 0..96 {
        if above(residual[v]) {
            let rise = if v < 32 { less } else { more };
            potentials.raise(tree.part(v as u32), tree.part(0), rise);
        }
    }
}

// A first tree: the sources but source 0, one after the other, each for its cheapest terminal that still wants drums; of the two the one that is used up
// is attached to the other, or the lane is full and stays out of the tree. A lane may go above its ceiling, at a fine, where a source has no other.
// The terminals that are left are attached to source 0.
// Stays: place, places and rest are no twins of those of `simplex`: there sources take turns and no lane is filled or fined.
ghost use Rattle.std.specs.Prelude.{◌≡◌};

use super::prices::Lanes;
use super::residuals::{VAST, pair};
use simplex::book::{Book, attach_spent, open_tree};
use simplex::potentials::Potentials;
use simplex::price::least;
use spanningtree::NONE;
use spanningtree::tree::Tree;

// The key of a terminal that has its drums, where keys are numbers: above every price, and below 2^31 with any.
const SHUT: u32 = 1_300_000_000;

// Source i sends what it can to its cheapest open terminal.
fn place(
    n: usize,
    i: u32,
    cost: &[u32; 2048],
    cap: &[u32; 2048],
    lanes: &mut Lanes,
    book: &mut Book,
    key: &mut [u32; 64],
    tree: &mut Tree,
    residual: &mut [u64; 128],
)
    ensures { lanes.new.fine ≡ lanes.old.fine }
{
    let j = least(i, n, &lanes.price, key) % 64;
    let s = (i % 32) as usize;
    let k = s * 64 + j as usize;
    let t = 32 + j as usize;
    let amount = u32::min(book.left[s], book.left[t]);
    let u = cap[k];
    let over = lanes.price[k] != cost[k];
    if !over & (u < amount) {
        book.left[s] = book.left[s].wrapping_sub(u);
        book.left[t] = book.left[t].wrapping_sub(u);
        lanes.fill(k, cost, cap);
        return;
    }
    if over {
        lanes.unfill(k);
    }
    let take = if over { VAST } else { u.wrapping_sub(amount) };
    attach_spent(
        i,
        32 + j,
        pair(amount, take),
        SHUT,
        book,
        key,
        tree,
        residual,
    );
}

// Each open source, one after the other, until it is open no more.
fn places(
    n: usize,
    cost: &[u32; 2048],
    cap: &[u32; 2048],
    lanes: &mut Lanes,
    book: &mut Book,
    key: &mut [u32; 64],
    tree: &mut Tree,
    residual: &mut [u64; 128],
)
    ensures { lanes.new.fine ≡ lanes.old.fine }
{
    for _ in 0..2_200 {
        if book.open == 0 {
            return;
        }
        let i = u32::trailing_zeros(book.open) % 32;
        place(n, i, cost, cap, lanes, book, key, tree, residual);
    }
}

// What the lane from source 0 to terminal j, a node that wants b, carries: its pair, and the fine where that is above its ceiling.
fn rest_pair(b: u32, u: u32) -> u64 {
    if u < b {
        pair(b - u, VAST)
    } else {
        pair(b, u - b)
    }
}

// The terminals below n that are attached to no source are attached to source 0.
fn rest(
    n: usize,
    cost: &[u32; 2048],
    cap: &[u32; 2048],
    lanes: &mut Lanes,
    book: &mut Book,
    tree: &mut Tree,
    residual: &mut [u64; 128],
)
    ensures fine { lanes.new.fine ≡ lanes.old.fine }
    ensures full { lanes.new.full ≡ lanes.old.full }
{
    book.count = book.count % 128;
    for j in 0..64 {
        if j < n {
            if tree.parent[32 + j] == NONE {
                let v = (32 + j) as u32;
                let b = book.left[32 + j];
                let u = cap[j];
                lanes.price[j] = cost[j].wrapping_add(if u < b { lanes.fine } else { 0 });
                tree.attach(v, 0, rest_pair(b, u), residual);
                book.note(v);
            }
        }
    }
}

// The first tree with its potentials.
pub fn start(
    m: usize,
    n: usize,
    cost: &[u32; 2048],
    cap: &[u32; 2048],
    lanes: &mut Lanes,
    amounts: &[u32; 32],
    demand: &[u32; 96],
    tree: &mut Tree,
    residual: &mut [u64; 128],
    potentials: &mut Potentials,
)
    ensures { lanes.new.fine ≡ lanes.old.fine }
{
    open_tree(n, tree, potentials);
    let mut book = Book::new(m, amounts, demand);
    places(
        n,
        cost,
        cap,
        lanes,
        &mut book,
        &mut potentials.key,
        tree,
        residual,
    );
    rest(n, cost, cap, lanes, &mut book, tree, residual);
    book.potentials(&lanes.price, tree, potentials);
}

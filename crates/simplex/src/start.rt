// A first tree: the sources but source 0 one after the other, each for its cheapest terminal that still wants drums; of the two the one that is used up
// is attached to the other. The terminals that are left are attached to source 0.
use super::book::{Book, attach_spent, open_tree};
use super::potentials::Potentials;
use super::price::{SHUT, least};
use spanningtree::NONE;
use spanningtree::tree::Tree;

// Source i sends what it can to its cheapest open terminal.
fn place(
    n: usize,
    i: u32,
    cost: &[u32; 2048],
    book: &mut Book,
    key: &mut [u32; 64],
    tree: &mut Tree,
    flow: &mut [u32; 128],
) {
    let j = least(i, n, cost, key) % 64;
    let amount = u32::min(book.left[(i % 32) as usize], book.left[32 + j as usize]);
    attach_spent(i, 32 + j, amount, SHUT, book, key, tree, flow);
}

// One open source after the other, until none is open.
fn places(
    n: usize,
    cost: &[u32; 2048],
    book: &mut Book,
    key: &mut [u32; 64],
    tree: &mut Tree,
    flow: &mut [u32; 128],
) {
    let mut waiting = book.open;
    for _ in 0..128 {
        if waiting == 0 {
            waiting = book.open;
        }
        if waiting == 0 {
            return;
        }
        let i = u32::trailing_zeros(waiting) % 32;
        waiting = waiting & (waiting - 1);
        place(n, i, cost, book, key, tree, flow);
    }
}

// The terminals below n that are attached to no source are attached to source 0.
fn rest(n: usize, book: &mut Book, tree: &mut Tree, flow: &mut [u32; 128]) {
    book.count = book.count % 128;
    for j in 0..64 {
        if j < n {
            if tree.parent[32 + j] == NONE {
                let v = (32 + j) as u32;
                tree.attach(v, 0, book.left[32 + j], flow);
                book.note(v);
            }
        }
    }
}

// The first tree with its potentials.
pub fn start(
    m: usize,
    n: usize,
    cost: &[u32; 2048],
    amounts: &[u32; 32],
    demand: &[u32; 96],
    tree: &mut Tree,
    flow: &mut [u32; 128],
    potentials: &mut Potentials,
) {
    open_tree(n, tree, potentials);
    let mut book = Book::new(m, amounts, demand);
    places(n, cost, &mut book, &mut potentials.key, tree, flow);
    rest(n, &mut book, tree, flow);
    book.potentials(cost, tree, potentials);
}

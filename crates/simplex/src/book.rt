// What a first tree is made with: the book of amounts and order, the keys of the terminals, and the potentials along a tree.
ghost use Rattle.std.specs.Prelude.{◌≤◌};

use super::potentials::Potentials;
use super::price::SHUT;
use spanningtree::NONE;
use spanningtree::flows::Load;
use spanningtree::tree::Tree;

// What each source still has and each terminal still wants, by node; the nodes in the order in which they were attached, and how many; and the sources that
// still have drums, a bit for each.
#[derive(Drop)]
pub struct Book {
    pub left: [u32; 128],
    pub order: [u32; 128],
    pub count: u32,
    pub open: u32,
}

// Keys of the terminals: their numbers, above every open key from n on.
pub fn keys(n: usize, key: &mut [u32; 64]) {
    for j in 0..64 {
        key[j] = if j < n { j as u32 } else { SHUT + j as u32 };
    }
}

// The sources from 1 up to m have their amounts, and are open.
fn stock(m: usize, amounts: &[u32; 32], book: &mut Book) {
    for i in 1..32 {
        if i < m {
            book.left[i] = amounts[i];
            book.open = book.open | (1u32 << i);
        }
    }
}

// Each terminal its demand.
fn wants(demand: &[u32; 96], book: &mut Book) {
    for v in 32..96 {
        book.left[v] = demand[v];
    }
}

// The potentials of all nodes, from source 0 on downwards: backwards in the order in which they were attached.
fn follow_all(book: &Book, cost: &[u32; 2048], tree: &Tree, potentials: &mut Potentials) {
    for k in (0..book.count % 129).rev() {
        potentials.follow(book.order[(k % 128) as usize], cost, tree);
    }
}

impl Book {
    // The book before a node is attached: of m sources, all but source 0.
    pub fn new(m: usize, amounts: &[u32; 32], demand: &[u32; 96]) -> Book {
        let mut book = Book {
            left: [0u32; 128],
            order: [0u32; 128],
            count: 0,
            open: 0,
        };
        wants(demand, &mut book);
        stock(m, amounts, &mut book);
        book
    }

    // A node is attached.
    pub fn note(&mut self, v: u32) {
        self.order[(self.count % 128) as usize] = v;
        self.count = self.count % 128 + 1;
    }

    // Source i has no drums any more.
    fn close(&mut self, i: u32) {
        self.open = self.open & (u32::MAX - (1u32 << i % 32));
    }

    // The potentials of the tree of this book, by these prices.
    pub fn potentials(&self, cost: &[u32; 2048], tree: &Tree, potentials: &mut Potentials) {
        keys(0, &mut potentials.key);
        follow_all(self, cost, tree, potentials);
    }
}

// What is made before the first node is attached: each node is a part by itself, source 0 has the potential 2^24, and n terminals are open.
pub fn open_tree(n: usize, tree: &mut Tree, potentials: &mut Potentials) {
    tree.parent = [NONE; 128];
    tree.separate();
    potentials.source = [16_777_216u32; 32];
    keys(n, &mut potentials.key);
}

// Source i and terminal j, a node, have as much less to send and to get as both can; the one that is used up is attached to the other by a lane of this
// load. A terminal's key is then its number and shut.
pub fn attach_spent<L: Load>(
    i: u32,
    j: u32,
    load: L,
    shut: u32,
    book: &mut Book,
    key: &mut [u32; 64],
    tree: &mut Tree,
    loads: &mut [L; 128],
)
    requires { shut ≤ 2100000000 }
{
    let s = (i % 32) as usize;
    let t = (j % 128) as usize;
    let a = book.left[s];
    let b = book.left[t];
    let amount = u32::min(a, b);
    let spent = a <= b;
    let child = if spent { i } else { j };
    let host = if spent { j } else { i };
    book.left[s] = a - amount;
    book.left[t] = b - amount;
    if spent {
        book.close(i);
    } else {
        let number = (j % 128 + 32) % 64;
        key[number as usize] = shut + number;
    }
    book.note(child);
    tree.attach(child, host, load, loads);
}

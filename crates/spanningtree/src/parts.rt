// A tree without the drums on its lanes, as the climb has it: parts that hang over from one node to another.
// Stays: these two walks are no twins of those with loads. They stop where a node is found below, not at a node, and keep parts within the one that moves:
// the climb's tree may have been spoiled.
ghost use Rattle.std.specs.Prelude.{◌≡◌};

use super::tree::{Part, Tree};

// A part is taken off the nodes from one on upwards, or put on them, as far as node stop hangs from none of them.
fn toggle_part(from: u32, stop: u32, moved: Part, tree: &mut Tree)
    ensures { tree.new.parent ≡ tree.old.parent }
{
    let source = if stop < 32 { 1u32 << stop } else { 0 };
    let terminal = if stop < 32 {
        0
    } else {
        1u64 << (stop % 128 + 32) % 64
    };
    let mut a = from;
    for _ in 0..96 {
        let v = (a % 128) as usize;
        let part = tree.sources_below[v];
        let below = tree.terminals_below[v];
        if (part & source != 0) | (below & terminal != 0) {
            return;
        }
        tree.sources_below[v] = part ^ moved.sources;
        tree.terminals_below[v] = below ^ moved.terminals;
        a = tree.parent[v];
    }
}

// Reverses the path from e up to v, so that the part that hung by v hangs by e from host.
fn reverse_path(v: u32, e: u32, host: u32, moved: Part, tree: &mut Tree) {
    let r = moved.sources;
    let c = moved.terminals;
    let mut a = e;
    let mut above = host;
    let mut off_sources: u32 = 0;
    let mut off_terminals: u64 = 0;
    for _ in 0..96 {
        let w = (a % 128) as usize;
        let next = tree.parent[w];
        let next_sources = tree.sources_below[w];
        let next_terminals = tree.terminals_below[w];
        tree.parent[w] = above;
        tree.sources_below[w] = r & (r ^ off_sources);
        tree.terminals_below[w] = c & (c ^ off_terminals);
        if a == v {
            return;
        }
        off_sources = next_sources;
        off_terminals = next_terminals;
        above = a;
        a = next;
    }
}

impl Tree {
    // The part below node v leaves the node above it and hangs from node host by its node e. Nodes above both v and host keep it.
    pub fn reattach(&mut self, v: u32, e: u32, host: u32) {
        let moved = self.part(v);
        let above = self.above(v);
        toggle_part(above, host, moved, self);
        toggle_part(host, v, moved, self);
        reverse_path(v, e, host, moved, self);
    }
}

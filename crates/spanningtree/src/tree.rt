// The tree in its arrays, and the parts that hang from its nodes.
ghost use Rattle.std.specs.Prelude.{◌≡◌, replicate};

use crate::NONE;

// The nodes of a part, a bit for each source and a bit for each terminal.
#[derive(Clone, Copy)]
pub struct Part {
    pub sources: u32,
    pub terminals: u64,
}

// The node above each node, and the sources and the terminals of the part that hangs from it.
#[derive(Drop)]
pub struct Tree {
    pub parent: [u32; 128],
    pub sources_below: [u32; 128],
    pub terminals_below: [u64; 128],
}

impl Tree {
    // The tree of no nodes.
    pub fn new() -> Tree
        ensures { result.parent ≡ replicate 128 96 }
    {
        Tree {
            parent: [NONE; 128],
            sources_below: [0u32; 128],
            terminals_below: [0u64; 128],
        }
    }

    // No node hangs from another, and none has a part.
    pub fn clear(&mut self)
        ensures { self.new.parent ≡ replicate 128 96 }
    {
        self.parent = [NONE; 128];
        self.sources_below = [0u32; 128];
        self.terminals_below = [0u64; 128];
    }

    // Each node is a part by itself.
    pub fn separate(&mut self)
        ensures { self.new.parent ≡ self.old.parent }
    {
        for j in 0..64 {
            if j < 32 {
                self.sources_below[j] = 1u32 << j % 32;
            }
            self.terminals_below[32 + j] = 1u64 << j;
        }
    }

    // The node above node v.
    pub fn above(&self, v: u32) -> u32 {
        self.parent[(v % 128) as usize]
    }

    // The part that hangs from node v.
    pub fn part(&self, v: u32) -> Part {
        let k = (v % 128) as usize;
        Part {
            sources: self.sources_below[k],
            terminals: self.terminals_below[k],
        }
    }
}

// The potentials of the tree: a source's is source[i], modulo 2^25; a terminal's, q, is kept as its key, 64 (2^25 - q) and its number.
ghost use Rattle.std.specs.Prelude.{◌≡◌, length};

use spanningtree::flows::lane;
use spanningtree::tree::{Part, Tree};

#[derive(Drop)]
pub struct Potentials {
    pub source: [u32; 32],
    pub key: [u32; 64],
}

// The sources of a part rise by d.
// Stays: no index is counted; the bits of a word are taken off one by one.
fn raise_sources(part: u32, d: u32, source: &mut [u32; 32]) {
    let mut rest = part;
    while 0 < rest {
        let i = (u32::trailing_zeros(rest) % 32) as usize;
        source[i] = source[i].wrapping_add(d);
        rest = rest & (rest - 1);
    }
}

// The same of the terminals, whose keys fall by 64 d.
// Stays: no index is counted; the bits of a word are taken off one by one.
fn raise_terminals(part: u64, d: u32, key: &mut [u32; 64]) {
    let e = 0u32.wrapping_sub(d << 6);
    let mut rest = part;
    while 0 < rest {
        let j = (u64::trailing_zeros(rest) % 64) as usize;
        key[j] = key[j].wrapping_add(e);
        rest = rest & (rest - 1);
    }
}

// The potentials of the sources as the check has them, from 600,000,000 on.
fn source_potentials(source: &[u32; 32], pot: &mut [u32; 96])
    requires { length pot.old ≡ 96 }
    ensures { length pot.new ≡ 96 }
{
    for i in 0..32 {
        pot[i] = 600_000_000 + source[i] % 33_554_432;
    }
}

// The same of the terminals.
fn terminal_potentials(key: &[u32; 64], pot: &mut [u32; 96])
    requires { length pot.old ≡ 96 }
    ensures { length pot.new ≡ 96 }
{
    for j in 0..64 {
        pot[32 + j] = 633_554_432 - key[j] % 2_147_483_648 / 64;
    }
}

impl Potentials {
    // A part rises. Where it has more than half of 64 terminals the other nodes of all fall in its place, as long as source 0 stays near 2^24, from which
    // the potentials must not go far.
    pub fn raise(&mut self, part: Part, all: Part, rise: u32) {
        if 32 < u64::count_ones(part.terminals) {
            let fall = 0u32.wrapping_sub(rise);
            let from_low = self.source[0].wrapping_add(fall).wrapping_sub(12_582_912);
            if from_low < 8_388_608 {
                raise_sources(all.sources ^ part.sources, fall, &mut self.source);
                raise_terminals(all.terminals ^ part.terminals, fall, &mut self.key);
                return;
            }
        }
        raise_sources(part.sources, rise, &mut self.source);
        raise_terminals(part.terminals, rise, &mut self.key);
    }

    // The potential of a node from that of the node above it: the lane between them is tight.
    pub fn follow(&mut self, v: u32, cost: &[u32; 2048], tree: &Tree) {
        let u = tree.above(v);
        let c = cost[lane(v, u)] % 8_388_608;
        if v < 32 {
            let t = ((u % 128 + 32) % 64) as usize;
            let q = self.key[t] % 2_147_483_648 / 64;
            self.source[(v % 32) as usize] = (67_108_864 - q - c) % 33_554_432;
        } else {
            let s = self.source[(u % 32) as usize] % 33_554_432;
            let j = (v % 128 + 32) % 64;
            self.key[j as usize] = (67_108_864 - s - c) % 33_554_432 * 64 + j;
        }
    }

    // The potentials of all nodes as the check has them.
    pub fn write(&self, pot: &mut [u32; 96])
        ensures { length pot.new ≡ 96 }
    {
        *pot = [600_000_000u32; 96];
        source_potentials(&self.source, pot);
        terminal_potentials(&self.key, pot);
    }
}

// A tree whose lanes carry drums, as the simplex has it: loads[v] is what the lane between v and the node above it carries.
ghost use Rattle.std.specs.Prelude.{◌≡◌, ◌<◌};

use super::tree::{Part, Tree};

// What is noted of a lane's drums: an amount, or several in one word. It changes by a sum that may wrap.
pub trait Load: Copy {
    fn plus(self, change: Self) -> Self;
}

impl Load for u32 {
    fn plus(self, change: u32) -> u32 {
        self.wrapping_add(change)
    }
}

impl Load for u64 {
    fn plus(self, change: u64) -> u64 {
        self.wrapping_add(change)
    }
}

// What the lanes above sources gain, and what those above terminals do.
#[derive(Clone, Copy)]
pub struct Gain<L> {
    pub source: L,
    pub terminal: L,
}

impl<L: Load> Gain<L> {
    // The same the other way round.
    pub fn turned(self) -> Gain<L>
        ensures source { result.source ≡ self.terminal }
        ensures terminal { result.terminal ≡ self.source }
    {
        Gain {
            source: self.terminal,
            terminal: self.source,
        }
    }
}

// The cell of the lane between a source and a terminal, whichever of v and u it is.
pub fn lane(v: u32, u: u32) -> usize
    ensures { result < 2048 }
{
    let source = if v < 32 { v } else { u };
    let terminal = if v < 32 { u } else { v };
    ((source % 32) * 64 + (terminal % 128 + 32) % 64) as usize
}

// What the lane above a node has after its gain.
fn gained<L: Load>(load: L, a: u32, gain: Gain<L>) -> L {
    load.plus(if a < 32 { gain.source } else { gain.terminal })
}

impl Tree {
    // Hangs a node, with the part below it, from host by a lane of this load.
    pub fn attach<L: Load>(&mut self, child: u32, host: u32, load: L, loads: &mut [L; 128]) {
        let v = (child % 128) as usize;
        let u = (host % 128) as usize;
        self.parent[v] = host;
        loads[v] = load;
        self.sources_below[u] = self.sources_below[u] | self.sources_below[v];
        self.terminals_below[u] = self.terminals_below[u] | self.terminals_below[v];
    }

    // A part is taken off the nodes from one on upwards, below stop, where they have it, or put on them, where they have not; their lanes gain.
    pub fn toggle_part<L: Load>(
        &mut self,
        from: u32,
        stop: u32,
        part: Part,
        gain: Gain<L>,
        loads: &mut [L; 128],
    )
        ensures { self.new.parent ≡ self.old.parent }
    {
        let mut a = from;
        for _ in 0..96 {
            if a == stop {
                return;
            }
            let v = (a % 128) as usize;
            self.sources_below[v] = self.sources_below[v] ^ part.sources;
            self.terminals_below[v] = self.terminals_below[v] ^ part.terminals;
            loads[v] = gained(loads[v], a, gain);
            a = self.parent[v];
        }
    }

    // Reverses the path from e up to v, so that the part that hung by v hangs by e from host, by a lane of this load; its lanes gain too.
    pub fn reverse_path<L: Load>(
        &mut self,
        v: u32,
        e: u32,
        host: u32,
        load: L,
        part: Part,
        gain: Gain<L>,
        loads: &mut [L; 128],
    ) {
        let mut a = e;
        let mut above = host;
        let mut moved = load;
        let mut off_sources: u32 = 0;
        let mut off_terminals: u64 = 0;
        for _ in 0..96 {
            let w = (a % 128) as usize;
            let next = self.parent[w];
            let next_sources = self.sources_below[w];
            let next_terminals = self.terminals_below[w];
            let next_load = loads[w];
            self.parent[w] = above;
            loads[w] = moved;
            self.sources_below[w] = part.sources ^ off_sources;
            self.terminals_below[w] = part.terminals ^ off_terminals;
            if a == v {
                return;
            }
            off_sources = next_sources;
            off_terminals = next_terminals;
            moved = gained(next_load, a, gain);
            above = a;
            a = next;
        }
    }
}

// How often each number was met.
ghost use Rattle.std.specs.Prelude.{◌≡◌, ◌≢◌, ℕ, ◌+◌, ◌-◌, ◌^◌, ◌<◌, length, slice_index, EachIndex};

use std::io;

// The counts of the numbers below N.
#[derive(Clone, Copy, PartialEq, Eq, Debug, Drop)]
pub struct Tally<const N: usize> {
    counts: [u64; N],
}

impl<const N: usize> Tally<N> {
    pub fn new() -> Tally<N>
        ensures { EachIndex result.counts (λ k. slice_index result.counts k ≡ 0) }
    {
        Tally { counts: [0; N] }
    }

    // How often k was met; 0 of a number that is not counted.
    pub fn of(&self, k: usize) -> u64
        ensures { result ≡ slice_index self.now.counts k }
    {
        self.counts.get(k).copied().unwrap_or(0)
    }

    // Counts one more of k, which has been met fewer than 2^64 - 1 times.
    pub fn count(&mut self, k: usize)
        ensures others { (i : ℕ) → i ≢ k → slice_index self.new.counts i ≡ slice_index self.old.counts i }
        ensures one { k < length self.old.counts → slice_index self.old.counts k < 2 ^ 64 - 1 →
            slice_index self.new.counts k ≡ slice_index self.old.counts k + 1 }
    {
        if k < N {
            self.counts[k] = self.counts[k].saturating_add(1);
        }
    }
}

// Writes a line: a name and a number.
pub fn say(rt: &impl Print, name: &str, number: u64) -> io::Result<()> {
    println!(rt; "{name}{number}")
}

// For programs of trials: the generator, repeatable draws, parts of slices, and counts of what was met.
#![tactic(auto)]

ghost use Rattle.std.specs.Prelude.{◌<◌};

pub mod number;
pub mod rows;
pub mod slices;
pub mod tally;

// The number after x of the generator x · 48,271 modulo 2^31 - 1.
pub fn after(x: u64) -> u64 {
    x % 2_147_483_647 * 48_271 % 2_147_483_647
}

// A number below the bound, of the generator's number; 0 where the bound is 0.
pub fn below(x: u64, bound: u64) -> u64
    ensures { 0 < bound → result < bound }
{
    if 0 < bound { x / 8 % bound } else { 0 }
}

// Writes into each cell what `value` makes of its place and the generator's next number, and gives the generator's number after them.
pub fn draw_each<T: Copy, F: FnMut(usize, u64) -> T>(seed: u64, to: &mut [T], mut value: F) -> u64
    requires { F.IsAlwaysCallable value }
{
    let mut x = seed;
    for (k, cell) in to.iter_mut().enumerate() {
        x = after(x);
        *cell = value(k, x);
    }
    x
}

// Draws numbers from low on, below low + bound, and gives the generator's number after them.
pub fn draw(seed: u64, low: u64, bound: u64, to: &mut [u64]) -> u64 {
    draw_each(seed, to, |_, x| low.saturating_add(below(x, bound)))
}

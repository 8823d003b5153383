// Random cases that are accepted, of 2 to 8 sources and 1 to 8 terminals, the same at each run.
ghost use Rattle.std.specs.Prelude.{◌<◌, ◌^◌};

use std::array;
use test_draws::after;

// A case in the first cells of arrays.
#[derive(Clone, Copy, PartialEq, Eq, Debug, Drop)]
pub struct Case {
    pub m: usize,
    pub n: usize,
    pub lanes: usize,
    pub entries: usize,
    pub costs: [i64; 64],
    pub supplies: [u64; 8],
    pub demands: [u64; 8],
    pub table: [u64; 41],
}

// A number below 2^31 - 1 for a seed, a place and a part, by two steps of the generator.
fn drawn(seed: u64, k: u64, part: u64) -> u64 {
    after(after(seed % 2_147_483_647 + k % 1_000 * 7_919 + part % 10 * 104_729))
}

// A power of ten, at most 10^10.
fn power(k: u64) -> u64 {
    match k {
        0 => 1,
        1 => 10,
        2 => 100,
        3 => 1_000,
        4 => 10_000,
        5 => 100_000,
        6 => 1_000_000,
        7 => 10_000_000,
        8 => 100_000_000,
        9 => 1_000_000_000,
        _ => 10_000_000_000,
    }
}

// A number of any count of digits up to the most.
fn of_digits(seed: u64, k: u64, most: u64) -> u64 {
    let bound = power(drawn(seed, k, 1) % (most % 20 + 1));
    let x = drawn(seed, k, 2) % 100_000 * 100_000 + drawn(seed, k, 3) % 100_000;
    if 0 < bound { x % bound } else { 0 }
}

// A number with a minus.
fn below_zero(size: u64) -> i64
    requires { size < 10 ^ 10 }
{
    0 - size as i64
}

// A unit cost from -999,999 to 999,999.
fn cost(seed: u64, k: u64) -> i64 {
    let size = of_digits(seed, k, 6) % 1_000_000;
    if drawn(seed, k, 4) % 2 == 0 {
        return size as i64;
    }
    below_zero(size)
}

// Plant 1 makes at most 40 drums, plant 2 at least 200; each depot has 0 or 1.
fn supply(seed: u64, i: u64) -> u64 {
    let x = drawn(seed, i, 5);
    match i {
        0 => x % 41,
        1 => 200 + x % 3_801,
        _ => x % 2,
    }
}

// An entry of at most nine digits, or of ten above any split: d is below 20 times n.
fn entry(seed: u64, y: u64, n: u64) -> u64 {
    if y < n % 9 * 20 {
        return of_digits(seed, y, 9);
    }
    of_digits(seed, y, 10)
}

// The case of a seed; each terminal wants 10 to 19 drums.
pub fn case_of(seed: u64) -> Case {
    let m = 2 + (drawn(seed, 1, 7) % 7) as usize;
    let n = 1 + (drawn(seed, 2, 7) % 8) as usize;
    let supplies = array::from_fn(|i| supply(seed, i as u64));
    Case {
        m,
        n,
        lanes: m * n,
        entries: (supplies[0] % 41) as usize + 1,
        costs: array::from_fn(|k| cost(seed, k as u64)),
        supplies,
        demands: array::from_fn(|j| 10 + drawn(seed, (j as u64).saturating_add(8), 6) % 10),
        table: array::from_fn(|y| entry(seed, y as u64, n as u64)),
    }
}

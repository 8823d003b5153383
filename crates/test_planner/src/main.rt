// Runs the planner on the fixed cases of the scope and on random small cases, and holds each answer to the
// refusals as the scope has them and to a listing of all plans.
#![tactic(auto)]

ghost use Rattle.std.specs.Prelude.{◌≡◌, length};

mod fixed;
mod money;
mod planned;
mod report;
mod trial;

use crate::fixed::run_fixed;
use crate::report::report;
use crate::trial::{close, run_small};
use std::io;
use test_cases::random::next_case;
use test_referee::bench::TALLY;
use test_referee::cells::fill;
use test_rows::input::read_full;

const RANDOM_CASES: u64 = 10_000;

fn new_bench() -> [u64; 26900]
    ensures { 26900 ≡ length result }
{
    [0; 26900]
}

// Runs the random cases, from a fixed seed.
fn run_random(b: &mut [u64]) {
    let mut seed: u64 = 20_260_101;
    for _ in 0..RANDOM_CASES {
        next_case(&mut seed, b);
        let o = run_small(b);
        close(b, o.checked);
    }
}

fn run_trials(rt: &impl Print, b: &mut [u64], table: &[u8]) -> io::Result<()> {
    run_fixed(b, table);
    println!(rt; "fixed")?;
    report(rt, b, 25)?;
    fill(b, TALLY, 50, 0, 0);
    run_random(b);
    println!(rt; "random")?;
    report(rt, b, 0)
}

fn main(rt: HostRuntime) -> io::Result<()> {
    let mut table = [0u8; 65536];
    let size = read_full(&mut rt.reader(), &mut table);
    let mut b = new_bench();
    run_trials(&rt, &mut b, &table[..size])
}

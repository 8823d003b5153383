// Random cases written as files, read again and written again: the case is the same, and so are the bytes. Then refusals 32 and 33 at their edges.
#![tactic(auto)]

mod draw;
mod edge;
mod trial;

use crate::edge::run_edges;
use crate::trial::run_trials;
use std::io;

fn main(rt: HostRuntime) -> io::Result<()> {
    let last = run_trials();
    println!(rt; "cases: 1000\nlast that does not come back: {last}")?;
    run_edges(&rt)
}

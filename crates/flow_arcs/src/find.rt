// What is found of a network, with the arcs' numbers in arrays, one for each field of an arc.
ghost use Rattle.std.specs.Prelude.{◌≡◌, ◌<◌};
ghost use Rattle.flow_network.specs.Answer.{count_in};
ghost use Rattle.flow_arcs.specs.Lent.{arc_at};

use crate::Arc;
use flow_network::Carried;
use refusal::Refusal;

// The answer, how many arcs are to be written, and the arrays that have their numbers.
#[derive(Clone, Copy)]
pub struct Found {
    pub answer: Result<Carried, Refusal>,
    pub count: usize,
    // Stays: four arrays and no array of `Arc`; `flow_network::cheapest_flow` writes a slice for each field, as C callers lend them.
    pub starts: [u64; 64],
    pub ends: [u64; 64],
    pub ceilings: [u64; 64],
    pub costs: [i64; 64],
}

impl Found {
    // Arc i.
    pub fn arc(&self, i: usize) -> Arc
        requires { i < 64 }
        ensures { result ≡ arc_at self.now i }
    {
        Arc {
            start: self.starts[i],
            end: self.ends[i],
            ceiling: self.ceilings[i],
            cost: self.costs[i],
        }
    }
}

// How many arcs are to be written: a refusal has none.
pub fn count_of(answer: Result<Carried, Refusal>) -> usize
    ensures { result ≡ count_in answer }
{
    match answer {
        Ok(carried) => carried.arcs as usize,
        Err(_) => 0,
    }
}

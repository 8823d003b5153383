// The first and the last split that have a plan within the ceilings.
ghost use Rattle.split_range.specs.inner.Range.{BeginReady, Ranged};

use super::quick::cheapest_first;
use super::trial::Trial;
use lastsplit::reach::{all_wide, last};
use residual::lanes::{Flow, Lanes};
use spanningtree::NONE;
use spanningtree::tree::Tree;

// The first and the last split that have a plan.
#[derive(Clone, Copy)]
pub struct Range {
    pub lo: u64,
    pub hi: u64,
}

// The splits that have a plan, where any has; and, of which nothing is promised, whether no ceiling is below its terminal's demand and whether the simplex's
// plan passed.
#[derive(Drop)]
pub struct Started {
    pub range: Option<Range>,
    pub wide: bool,
    pub passed: bool,
}

// The first and the last split of a prepared case that have a plan within the ceilings; a cheapest plan at the first goes into flow, with its
// potentials and the lanes in use, and the simplex's tree, of which nothing is promised, into tree. How step 1 is tried does not show in what is
// promised. Any cheapest plan will do: the plan for everybody takes its place at the end.
pub fn begin(
    trial: Trial,
    lanes: &Lanes<'_>,
    supply: &[u32; 32],
    demand: &[u32; 96],
    run0: u32,
    run1: u32,
    made: u32,
    flow: &mut Flow,
    tree: &mut Tree,
) -> Started
    requires { BeginReady lanes.now.m lanes.now.n lanes.now.cost.now lanes.now.cap.now supply.now demand.now run0 run1 made }
    ensures { Ranged lanes.now.m lanes.now.n lanes.now.cost.now lanes.now.cap.now supply.now demand.now run0 run1 made
        flow.new.x flow.new.serves flow.new.pot result.range }
{
    let wide = all_wide(lanes.m, lanes.cap, demand);
    let first = cheapest_first(
        trial, wide, lanes, supply, demand, run0, run1, made, flow, tree,
    );
    let passed = tree.parent[1] != NONE;
    if let Some(split) = first {
        let top = u32::min(supply[0], made - run1);
        let gone = last(wide, lanes, top - split, demand, flow);
        let range = Range {
            lo: split as u64,
            hi: (split + gone) as u64,
        };
        return Started {
            range: Some(range),
            wide,
            passed,
        };
    }
    Started {
        range: None,
        wide,
        passed,
    }
}

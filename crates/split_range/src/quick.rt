// Step 1 by network simplex. Its plan is believed where it passes the check.
ghost use Rattle.std.specs.Prelude.{◌≡◌, ◌-◌, ◌≤◌, max, length};
ghost use Rattle.residual.specs.inner.Cells.{cells};
ghost use Rattle.residual.specs.inner.Network.{net, get};
ghost use Rattle.residual.specs.inner.LanesInUse.{Covers};
ghost use Rattle.slackcheck.specs.inner.Checked.{CheckReady};
ghost use Rattle.firstsplit.specs.inner.FirstPlan.{FirstPlan};
ghost use Rattle.split_range.specs.inner.QuickPlan.{Quick};
ghost use Rattle.split_range.specs.inner.Range.{BeginReady};

use super::trial::Trial;
use bounded::solve::solve as solve_within;
use firstsplit::base::first_plan;
use residual::lanes::{Flow, Lanes};
use simplex::solve::solve;
use slackcheck::check::good;
use slackcheck::serving::all_servers;
use spanningtree::NONE;
use spanningtree::tree::Tree;

// The first split within the supplies and the least runs.
fn first_split(run0: u32, supply1: u32, made: u32) -> u32
    ensures { result ≡ max run0 (made - supply1) }
{
    if made <= supply1 {
        return run0;
    }
    if made - supply1 < run0 {
        return run0;
    }
    made - supply1
}

// The plan of the simplex at a split with its tree, for whoever checks it: of the one that knows no ceilings, where none is below a demand.
fn simplex_at(
    wide: bool,
    lanes: &Lanes<'_>,
    supply: &[u32; 32],
    demand: &[u32; 96],
    split: u32,
    made: u32,
    flow: &mut Flow,
    tree: &mut Tree,
)
    requires { split ≤ made }
    ensures lengths { (length flow.new.x ≡ 2048) × (length flow.new.pot ≡ 96) }
    ensures serves { flow.new.serves ≡ flow.old.serves }
{
    let mut amounts = *supply;
    amounts[0] = split;
    amounts[1] = made - split;
    if wide {
        solve(
            lanes.m,
            lanes.n,
            lanes.cost,
            &amounts,
            demand,
            &mut flow.x,
            &mut flow.pot,
            tree,
        );
    } else {
        solve_within(
            lanes.m,
            lanes.n,
            lanes.cost,
            lanes.cap,
            &amounts,
            demand,
            &mut flow.x,
            &mut flow.pot,
            tree,
        );
    }
}

// One drum more on a lane.
fn spoil_plan(lane: Option<usize>, x: &mut [u32; 2048])
    requires { length x.old ≡ 2048 }
    ensures { length x.new ≡ 2048 }
{
    if let Some(k) = lane {
        if k < 2048 {
            x[k] = x[k].wrapping_add(1);
        }
    }
}

// A node that is attached to plant 1.
fn spoil_tree(node: Option<usize>, tree: &mut Tree)
    ensures { (tree.new.sources_below ≡ tree.old.sources_below) × (tree.new.terminals_below ≡ tree.old.terminals_below) }
{
    if let Some(v) = node {
        if v < 128 {
            tree.parent[v] = 0;
        }
    }
}

// A cheapest plan at the first split within the supplies and the least runs, where the simplex finds one that passes the check.
fn quick_plan(
    trial: Trial,
    wide: bool,
    lanes: &Lanes<'_>,
    supply: &[u32; 32],
    demand: &[u32; 96],
    run0: u32,
    made: u32,
    flow: &mut Flow,
    tree: &mut Tree,
) -> Option<u32>
    requires check_ready { CheckReady lanes.now.m lanes.now.n (cells lanes.now.cost.now) }
    requires run0_le_made { run0 ≤ made }
    ensures { Quick lanes.now.m lanes.now.n lanes.now.cost.now lanes.now.cap.now flow.old.x
        supply.now demand.now run0 made flow.new.pot flow.new.x flow.new.serves result }
{
    let split = first_split(run0, supply[1], made);
    simplex_at(wide, lanes, supply, demand, split, made, flow, tree);
    spoil_plan(trial.lane, &mut flow.x);
    spoil_tree(trial.node, tree);
    if !good(lanes, split, made, supply, demand, flow) {
        return None;
    }
    flow.serves = [0u32; 64];
    all_servers(lanes.m, lanes.n, &flow.x, &mut flow.serves);
    Some(split)
}

// A cheapest plan at the first split that has one: by the simplex, where that is wanted and its plan passes the check; else by cheapest paths,
// and there is no tree: no node is above plant 2. Any cheapest plan will do: the plan for everybody takes its place at the end.
pub fn cheapest_first(
    trial: Trial,
    wide: bool,
    lanes: &Lanes<'_>,
    supply: &[u32; 32],
    demand: &[u32; 96],
    run0: u32,
    run1: u32,
    made: u32,
    flow: &mut Flow,
    tree: &mut Tree,
) -> Option<u32>
    requires { BeginReady lanes.now.m lanes.now.n lanes.now.cost.now lanes.now.cap.now supply.now demand.now run0 run1 made }
    ensures first_plan { FirstPlan (net lanes.now.m lanes.now.n lanes.now.cost.now lanes.now.cap.now flow.old.x)
        (λ i. get supply.now i) demand.now run0 run1 made flow.new.pot flow.new.x result }
    ensures covers { Covers lanes.now.m lanes.now.n flow.new.x flow.new.serves }
{
    if trial.simplex {
        if let Some(split) = quick_plan(
            trial, wide, lanes, supply, demand, run0, made, flow, tree,
        ) {
            return Some(split);
        }
    }
    tree.parent[1] = NONE;
    flow.x = [0u32; 2048];
    flow.serves = [0u32; 64];
    first_plan(lanes, supply, demand, run0, run1, made, flow)
}

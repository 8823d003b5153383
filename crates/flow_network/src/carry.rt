// The planner asked for the cheapest plan of a network's case.
ghost use Rattle.std.specs.Prelude.{◌≡◌, ◌≤◌, length};
ghost use Rattle.lent_case.specs.Lent.{case_of};
ghost use Rattle.flow_network.specs.inner.Found.{FoundIs};
ghost use Rattle.flow_network.specs.inner.Ready.{Arcs, Amounts, Named, CarriedIs};
ghost use Rattle.flow_case.specs.inner.Slices.{net_of};

use flow_case::build::{fill_demands, fill_table};
use flow_case::rows::{cost_rows, fill_flow, fill_supplies, lane_rows};
use lent_case::Case;
use planner::plan;

// The split and the total of a plan.
#[derive(Clone, Copy, Debug, PartialEq, Eq)]
pub struct Found {
    pub split: u64,
    pub total: i64,
}

// Plans a case, for the plan and its split and total alone.
pub fn plan_case(case: &Case<'_>, cells: &mut [u64]) -> Option<Found>
    requires { length cells.old ≡ 2048 }
    ensures { FoundIs (case_of case.now 2048 4001 4001) cells.old cells.new result }
{
    let mut splits = [0; 4001];
    let mut freights = [0; 4001];
    let planned = plan(case, cells, &mut splits, &mut freights).ok()?;
    Some(Found {
        split: planned.split,
        total: planned.total,
    })
}

// The cheapest flow of a network in slices, by way of the planner: its total, where there is one.
pub fn carry(
    gives: &[u64],
    takes: &[u64],
    haves: &[u64],
    starts: &[u64],
    ends: &[u64],
    ceilings: &[u64],
    costs: &[i64],
    named: usize,
    table: &[u64],
    flow: &mut [u64],
) -> Option<i64>
    requires arcs { Arcs (length gives.now) starts.now ends.now ceilings.now costs.now }
    requires amounts { Amounts gives.now takes.now haves.now ends.now ceilings.now }
    requires named { Named starts.now named table.now }
    requires starts_in_bounds { length starts.now ≤ length flow.old }
    ensures { CarriedIs
        (net_of gives.now takes.now starts.now ends.now ceilings.now costs.now)
        named table.now flow.old flow.new result }
{
    let m = gives.len();
    let n = starts.len();
    let w = (ends[named] - 1) as usize;
    let v = (starts[named] - 1) as usize;
    let top = ceilings[named];
    let most = haves[w] - takes[w];
    let mut supplies = [0; 32];
    fill_supplies(haves, takes, w, v, &mut supplies);
    let mut demands = [0; 64];
    fill_demands(ceilings, named, &mut demands);
    let mut lanes = [0; 2048];
    lane_rows(m, w, v, starts, ends, &mut lanes);
    let mut rates = [0; 2048];
    cost_rows(m, w, v, starts, costs, &mut rates);
    let mut entries = [0; 4001];
    fill_table(table, top as usize, most as usize, &mut entries);
    let mut cells = [0; 2048];
    let all = m * n;
    let last = most as usize + 1;
    let case = Case {
        m,
        n,
        run1: most.saturating_sub(top),
        run2: 0,
        costs: &rates[0..all],
        supplies: &supplies[0..m],
        demands: &demands[0..n],
        ceilings: &lanes[0..all],
        table: &entries[0..last],
    };
    let found = plan_case(&case, &mut cells)?;
    fill_flow(&cells, starts, w, v, named, found.split + top - most, flow);
    Some(found.total)
}

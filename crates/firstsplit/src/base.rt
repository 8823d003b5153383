// Step 1: a cheapest plan at the first split that has one within the ceilings.
ghost use Rattle.std.specs.Prelude.{◌≤◌, ◌<◌};
ghost use Rattle.residual.specs.inner.Network.{net, get};
ghost use Rattle.residual.specs.inner.LanesInUse.{Covers};
ghost use Rattle.firstsplit.specs.inner.Shipment.{Stocked, Short, ShipDone, Asked};
ghost use Rattle.firstsplit.specs.inner.FirstPlan.{BaseReady, DepotsDone, PlantsReady, Sending, FirstDone, FirstPlan};

use augment::send::send;
use residual::lanes::{Flow, Lanes};

// Sends amount from a source to the terminals that have room; what is left.
fn ship(
    lanes: &Lanes<'_>,
    demand: &[u32; 96],
    start: usize,
    amount: u32,
    flow: &mut Flow,
    room: &mut [u32; 96],
) -> u32
    requires start_lt_m { start < lanes.now.m }
    requires stocked { Stocked (net lanes.now.m lanes.now.n lanes.now.cost.now lanes.now.cap.now flow.old.x) flow.old.pot room.old flow.old.x }
    requires short { Short (net lanes.now.m lanes.now.n lanes.now.cost.now lanes.now.cap.now flow.old.x) room.old demand.now }
    requires covers { Covers lanes.now.m lanes.now.n flow.old.x flow.old.serves }
    ensures ship_done { ShipDone (net lanes.now.m lanes.now.n lanes.now.cost.now lanes.now.cap.now flow.old.x) room.old start amount
        flow.new.pot room.new flow.new.x result }
    ensures covers_2 { Covers lanes.now.m lanes.now.n flow.new.x flow.new.serves }
{
    let mut left = amount;
    // Stays: no index is counted; each send takes as many drums as its path can bear.
    while 0 < left {
        let Some(sent) = send(lanes, room, demand, start, left, flow) else {
            return left;
        };
        room[sent.goal] = room[sent.goal] - sent.amount;
        left = left - sent.amount;
    }
    left
}

// From no amounts at all, sends each depot's stock. Whether all of it could be sent.
fn send_depots(
    lanes: &Lanes<'_>,
    supply: &[u32; 32],
    demand: &[u32; 96],
    flow: &mut Flow,
    room: &mut [u32; 96],
) -> bool
    requires base_ready { BaseReady (net lanes.now.m lanes.now.n lanes.now.cost.now lanes.now.cap.now flow.old.x) room.old flow.old.x }
    requires le_m { 2 ≤ lanes.now.m }
    requires asked { Asked lanes.now.n room.old demand.now }
    requires covers { Covers lanes.now.m lanes.now.n flow.old.x flow.old.serves }
    ensures depots_done { DepotsDone (net lanes.now.m lanes.now.n lanes.now.cost.now lanes.now.cap.now flow.old.x) supply.now room.old
        flow.new.pot room.new flow.new.x result }
    ensures covers_2 { Covers lanes.now.m lanes.now.n flow.new.x flow.new.serves }
{
    flow.pot = [800_000_000u32; 96];
    let m = lanes.m;
    for k in 0..m - 2 {
        let i = m - 1 - k;
        let left = ship(lanes, demand, i, supply[i], flow, room);
        if 0 < left {
            return false;
        }
    }
    true
}

// Behind the depots: plant 1 sends its least run, plant 2 as much as it can, and plant 1 the rest of what both make. The first split, if there is a plan.
fn send_plants(
    lanes: &Lanes<'_>,
    supply: &[u32; 32],
    demand: &[u32; 96],
    run0: u32,
    run1: u32,
    made: u32,
    flow: &mut Flow,
    room: &mut [u32; 96],
) -> Option<u32>
    requires le_m { 2 ≤ lanes.now.m }
    requires plants_ready { PlantsReady (λ i. get supply.now i) run0 run1 made }
    requires sending { Sending (net lanes.now.m lanes.now.n lanes.now.cost.now lanes.now.cap.now flow.old.x) (λ i. get supply.now i) demand.now 0 0
        flow.old.pot room.old flow.old.x }
    requires covers { Covers lanes.now.m lanes.now.n flow.old.x flow.old.serves }
    ensures first_done { FirstDone (net lanes.now.m lanes.now.n lanes.now.cost.now lanes.now.cap.now flow.old.x) (λ i. get supply.now i)
        demand.now run0 run1 made flow.new.pot room.new flow.new.x result }
    ensures covers_2 { Covers lanes.now.m lanes.now.n flow.new.x flow.new.serves }
{
    if 0 < ship(lanes, demand, 0, run0, flow, room) {
        return None;
    }
    let most = supply[1].min(made - run0);
    let short = ship(lanes, demand, 1, most, flow, room);
    if most - short < run1 {
        return None;
    }
    let split = made - (most - short);
    if supply[0] < split {
        return None;
    }
    if 0 < ship(lanes, demand, 0, split - run0, flow, room) {
        return None;
    }
    Some(split)
}

// From no amounts at all, a cheapest plan at the first split that has one, and that split. Any cheapest plan will do: the climb starts from it, and the
// plan for everybody takes its place at the end.
pub fn first_plan(
    lanes: &Lanes<'_>,
    supply: &[u32; 32],
    demand: &[u32; 96],
    run0: u32,
    run1: u32,
    made: u32,
    flow: &mut Flow,
) -> Option<u32>
    requires le_m { 2 ≤ lanes.now.m }
    requires plants_ready { PlantsReady (λ i. get supply.now i) run0 run1 made }
    requires base_ready { BaseReady (net lanes.now.m lanes.now.n lanes.now.cost.now lanes.now.cap.now flow.old.x) demand.now flow.old.x }
    requires covers { Covers lanes.now.m lanes.now.n flow.old.x flow.old.serves }
    ensures first_plan { FirstPlan (net lanes.now.m lanes.now.n lanes.now.cost.now lanes.now.cap.now flow.old.x) (λ i. get supply.now i)
        demand.now run0 run1 made flow.new.pot flow.new.x result }
    ensures covers_2 { Covers lanes.now.m lanes.now.n flow.new.x flow.new.serves }
{
    let mut room = *demand;
    if send_depots(lanes, supply, demand, flow, &mut room) {
        return send_plants(lanes, supply, demand, run0, run1, made, flow, &mut room);
    }
    None
}

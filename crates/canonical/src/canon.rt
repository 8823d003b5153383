// One plan for everybody: of the plans as cheap as a slack plan, the one that has the smaller amount at the first lane, in row order, where it
// differs from another. Such plans differ on tight lanes only. There each lane in turn keeps what cannot go another way, and is closed.
ghost use Rattle.std.specs.Prelude.{◌≡◌, ◌+◌, ◌*◌, ◌<◌, get_or, length};
ghost use Rattle.residual.specs.inner.Cells.{cells};
ghost use Rattle.residual.specs.inner.Network.{net};
ghost use Rattle.residual.specs.inner.LanesInUse.{Covers};
ghost use Rattle.reachability.specs.inner.Reachability.{Opens, Supplied, Known, ReachAt, Trodden};
ghost use Rattle.canonical.specs.inner.Canonize.{FreeReady, Followed, Rerouted, Doors, Resent, LaneSettled, CanonReady, bare, Kept};
ghost use Rattle.canonical.specs.inner.Canonize.{priced, Tights, PartReady, Clear, LaneFreed, PartedTo, Open, Onward, Canonized};

use augment::send::{measure, push, serve};
use reachability::reach::{drop_source, reach};
use residual::lanes::Lanes;

// The lanes that are free: the ceiling of each, 0 where it is closed, the terminals that each source has one to, and the sources that have one to
// each terminal, a bit for each.
#[derive(Drop)]
struct FreeLanes {
    cap: [u32; 2048],
    ways: [u64; 32],
    doors: [u32; 64],
}

// What the free lanes carry: the drums on each, and the sources that serve each terminal, a bit for each.
#[derive(Drop)]
struct Load {
    x: [u32; 2048],
    serves: [u32; 64],
}

// The tight lanes of source i, a bit for each.
fn tight_lanes(lanes: &Lanes<'_>, i: usize, pot: &[u32; 96]) -> u64
    requires i_lt_m { i < lanes.now.m }
    requires part_ready { PartReady (priced lanes.now.m lanes.now.n (cells lanes.now.cost.now)) pot.now }
    ensures { Tights (cells lanes.now.cost.now) pot.now i lanes.now.n result }
{
    let n = lanes.n;
    let cost = lanes.cost;
    let own = pot[i];
    let mut all: u64 = 0;
    for j in 0..n {
        if cost[i * 64 + j] + own == pot[32 + j] {
            all = all | (1 << j);
        }
    }
    all
}

// Lane (i, j) is free, with its ceiling and its drums, and noted with its terminal.
fn free_lane(
    lanes: &Lanes<'_>,
    i: usize,
    j: usize,
    plan: &mut [u32; 2048],
    free: &mut FreeLanes,
    load: &mut Load,
)
    requires reach_at { ReachAt lanes.now.m lanes.now.n i j }
    requires clear { Clear i j plan.old free.old.cap load.old.x }
    requires covers { Covers lanes.now.m lanes.now.n load.old.x load.old.serves }
    requires doors { Doors lanes.now.m lanes.now.n free.old.cap free.old.doors }
    ensures lane_freed { LaneFreed (cells lanes.now.cap.now) i j plan.old free.old.cap load.old.x plan.new
        free.new.cap load.new.x }
    ensures covers_2 { Covers lanes.now.m lanes.now.n load.new.x load.new.serves }
    ensures doors_2 { Doors lanes.now.m lanes.now.n free.new.cap free.new.doors }
    ensures same_ways { free.new.ways ≡ free.old.ways }
{
    let k = i * 64 + j;
    free.cap[k] = lanes.cap[k];
    free.doors[j] = free.doors[j] | (1 << i);
    let amount = plan[k];
    if 0 < amount {
        load.x[k] = amount;
        plan[k] = 0;
        serve(32 + j, i, &mut load.serves);
    }
}

// The lanes of source i are parted: a tight one is free; what another carries stays in the plan, set aside.
fn part_row(
    lanes: &Lanes<'_>,
    i: usize,
    pot: &[u32; 96],
    plan: &mut [u32; 2048],
    free: &mut FreeLanes,
    load: &mut Load,
)
    requires i_lt_m { i < lanes.now.m }
    requires part_ready { PartReady (bare lanes.now.m lanes.now.n (cells lanes.now.cost.now) (cells lanes.now.cap.now)) pot.now }
    requires parted_to { PartedTo (bare lanes.now.m lanes.now.n (cells lanes.now.cost.now) (cells lanes.now.cap.now)) pot.now (i * 64) plan.old
        free.old.cap load.old.x load.old.serves free.old.ways free.old.doors }
    ensures parted_to_2 { PartedTo (bare lanes.now.m lanes.now.n (cells lanes.now.cost.now) (cells lanes.now.cap.now)) pot.now (i * 64 + 64)
        plan.new free.new.cap load.new.x load.new.serves free.new.ways free.new.doors }
    ensures kept { Kept plan.old load.old.x plan.new load.new.x }
{
    let all = tight_lanes(lanes, i, pot);
    free.ways[i] = all;
    let mut rest = all;
    // Stays: no index is counted; the bits of a word are taken off one by one.
    while 0 < rest {
        let j = u64::trailing_zeros(rest) as usize;
        free_lane(lanes, i, j, plan, free, load);
        rest = rest & (rest - 1);
    }
}

// All lanes are parted.
fn part(
    lanes: &Lanes<'_>,
    pot: &[u32; 96],
    plan: &mut [u32; 2048],
    free: &mut FreeLanes,
    load: &mut Load,
)
    requires part_ready { PartReady (bare lanes.now.m lanes.now.n (cells lanes.now.cost.now) (cells lanes.now.cap.now)) pot.now }
    requires parted_to { PartedTo (bare lanes.now.m lanes.now.n (cells lanes.now.cost.now) (cells lanes.now.cap.now)) pot.now 0 plan.old
        free.old.cap load.old.x load.old.serves free.old.ways free.old.doors }
    ensures parted_to_2 { PartedTo (bare lanes.now.m lanes.now.n (cells lanes.now.cost.now) (cells lanes.now.cap.now)) pot.now (lanes.now.m * 64)
        plan.new free.new.cap load.new.x load.new.serves free.new.ways free.new.doors }
    ensures kept { Kept plan.old load.old.x plan.new load.new.x }
{
    for i in 0..lanes.m {
        part_row(lanes, i, pot, plan, free, load);
    }
}

// Sends what can go, limit drums at most, along the way from source i to terminal j that was found.
fn follow(
    lanes: &Lanes<'_>,
    i: usize,
    j: usize,
    limit: u32,
    prev: &[u32; 96],
    free: &FreeLanes,
    load: &mut Load,
) -> u32
    requires free_ready { FreeReady lanes.now.m lanes.now.n i j free.now.cap load.old.x }
    requires limit_nonzero { 0 < limit }
    requires trodden { Trodden lanes.now.m lanes.now.n i j limit free.now.cap load.old.x prev.now }
    requires covers { Covers lanes.now.m lanes.now.n load.old.x load.old.serves }
    ensures followed { Followed lanes.now.m lanes.now.n i j limit free.now.cap load.old.x load.new.x prev.now result }
    ensures covers_2 { Covers lanes.now.m lanes.now.n load.new.x load.new.serves }
{
    let goal = 32 + j;
    let way = measure(prev, i, goal, limit, &load.x, &free.cap);
    push(
        prev,
        way.count,
        goal,
        way.amount,
        &mut load.x,
        &mut load.serves,
    );
    way.amount
}

// Sends amount from source i to terminal j on free lanes, which cost nothing; what is left.
fn reroute(
    lanes: &Lanes<'_>,
    i: usize,
    j: usize,
    amount: u32,
    free: &FreeLanes,
    load: &mut Load,
    supplied: &mut u64,
) -> u32
    requires free_ready { FreeReady lanes.now.m lanes.now.n i j free.now.cap load.old.x }
    requires j_value { get_or free.now.cap (i * 64 + j) 0 ≡ 0 }
    requires known { Known lanes.now.m lanes.now.n i j load.old.x supplied.old }
    requires opens { Opens lanes.now.m lanes.now.n free.now.cap free.now.ways }
    requires covers { Covers lanes.now.m lanes.now.n load.old.x load.old.serves }
    ensures rerouted { Rerouted lanes.now.m lanes.now.n i j amount free.now.cap load.old.x load.new.x result }
    ensures supplied { Supplied lanes.now.m lanes.now.n i load.new.x supplied.new }
    ensures covers_2 { Covers lanes.now.m lanes.now.n load.new.x load.new.serves }
{
    let mut prev = [0u32; 96];
    let mut left = amount;
    // Stays: no index is counted; each way takes as many drums as can go along it.
    while 0 < left {
        if reach(
            lanes.m,
            lanes.n,
            i,
            j,
            left,
            &free.ways,
            &free.cap,
            &load.x,
            supplied,
            &mut load.serves,
            &mut prev,
        ) {
            left = left - follow(lanes, i, j, left, &prev, free, load);
        } else {
            return left;
        }
    }
    left
}

// Sends amount round the closed lane (i, j), as far as it can go; what is left. No search is made where no lane to terminal j is free, or where
// source i has no free lane to another terminal that a source after i may serve.
fn resend(
    lanes: &Lanes<'_>,
    i: usize,
    j: usize,
    amount: u32,
    free: &FreeLanes,
    load: &mut Load,
    supplied: &mut u64,
) -> u32
    requires free_ready { FreeReady lanes.now.m lanes.now.n i j free.now.cap load.old.x }
    requires j_value { get_or free.now.cap (i * 64 + j) 0 ≡ 0 }
    requires known { Known lanes.now.m lanes.now.n i j load.old.x supplied.old }
    requires opens { Opens lanes.now.m lanes.now.n free.now.cap free.now.ways }
    requires covers { Covers lanes.now.m lanes.now.n load.old.x load.old.serves }
    requires doors { Doors lanes.now.m lanes.now.n free.now.cap free.now.doors }
    ensures resent { Resent lanes.now.m lanes.now.n i j amount free.now.cap load.old.x load.new.x result }
    ensures supplied { Supplied lanes.now.m lanes.now.n i load.new.x supplied.new }
    ensures covers_2 { Covers lanes.now.m lanes.now.n load.new.x load.new.serves }
{
    if free.doors[j] == 0 {
        return amount;
    }
    if free.ways[i] & (*supplied - (1 << j)) == 0 {
        return amount;
    }
    reroute(lanes, i, j, amount, free, load, supplied)
}

// Lane (i, j) keeps what cannot go another way, and is closed.
fn settle_lane(
    lanes: &Lanes<'_>,
    i: usize,
    j: usize,
    aside: &mut [u32; 2048],
    free: &mut FreeLanes,
    load: &mut Load,
    supplied: &mut u64,
)
    requires i_lt_m { (i < lanes.now.m) × (j < lanes.now.n) }
    requires supplied { Supplied lanes.now.m lanes.now.n i load.old.x supplied.old }
    requires fact { Open lanes.now.m lanes.now.n aside.old free.old.cap load.old.x load.old.serves free.old.ways free.old.doors }
    ensures lane_settled { LaneSettled lanes.now.m lanes.now.n i j aside.old free.old.cap load.old.x aside.new free.new.cap load.new.x }
    ensures fact_2 { Open lanes.now.m lanes.now.n aside.new free.new.cap load.new.x load.new.serves free.old.ways free.new.doors }
    ensures same_ways { free.new.ways ≡ free.old.ways }
    ensures supplied_2 { Supplied lanes.now.m lanes.now.n i load.new.x supplied.new }
{
    let k = i * 64 + j;
    let amount = load.x[k];
    free.cap[k] = 0;
    free.doors[j] = free.doors[j] & (u32::MAX - (1 << i));
    if amount == 0 {
        return;
    }
    load.x[k] = 0;
    drop_source(i, j, &mut load.serves);
    *supplied = *supplied | (1 << j);
    let left = resend(lanes, i, j, amount, free, load, supplied);
    aside[k] = aside[k] + left;
}

// The free lanes of source i are settled.
fn settle_row(
    lanes: &Lanes<'_>,
    i: usize,
    aside: &mut [u32; 2048],
    free: &mut FreeLanes,
    load: &mut Load,
    supplied: &mut u64,
)
    requires i_lt_m { i < lanes.now.m }
    requires supplied { Supplied lanes.now.m lanes.now.n 32 load.old.x supplied.old }
    requires fact { Open lanes.now.m lanes.now.n aside.old free.old.cap load.old.x load.old.serves free.old.ways free.old.doors }
    ensures onward { Onward lanes.now.m lanes.now.n (i * 64) (i * 64 + 64) aside.old free.old.cap load.old.x aside.new
        free.new.cap load.new.x }
    ensures fact_2 { Open lanes.now.m lanes.now.n aside.new free.new.cap load.new.x load.new.serves free.new.ways free.new.doors }
    ensures supplied_2 { Supplied lanes.now.m lanes.now.n 32 load.new.x supplied.new }
{
    let mut rest = free.ways[i];
    // Stays: no index is counted; the bits of a word are taken off one by one.
    while 0 < rest {
        let j = u64::trailing_zeros(rest) as usize;
        settle_lane(lanes, i, j, aside, free, load, supplied);
        rest = rest & (rest - 1);
        free.ways[i] = rest;
    }
}

// All lanes are settled.
fn settle(lanes: &Lanes<'_>, aside: &mut [u32; 2048], free: &mut FreeLanes, load: &mut Load)
    requires { Open lanes.now.m lanes.now.n aside.old free.old.cap load.old.x load.old.serves free.old.ways free.old.doors }
    ensures onward { Onward lanes.now.m lanes.now.n 0 (lanes.now.m * 64) aside.old free.old.cap load.old.x aside.new free.new.cap load.new.x }
    ensures fact { Open lanes.now.m lanes.now.n aside.new free.new.cap load.new.x load.new.serves free.new.ways free.new.doors }
{
    let mut supplied = u64::MAX;
    for i in 0..lanes.m {
        settle_row(lanes, i, aside, free, load, &mut supplied);
    }
}

// How many places the plan's array has. Called for its promise: an array lent as a slice has a length that proofs know.
fn places(plan: &[u32; 2048]) -> usize
    ensures { length plan.now ≡ 2048 }
{
    let all: &[u32] = plan;
    all.len()
}

// Puts the plan for everybody in the place of a plan that is slack with the given potentials. Any contents will do in cells past the case: nothing
// reads them.
pub fn canonize(lanes: &Lanes<'_>, pot: &[u32; 96], plan: &mut [u32; 2048])
    requires { CanonReady (net lanes.now.m lanes.now.n lanes.now.cost.now lanes.now.cap.now plan.old) pot.now }
    ensures { Canonized (net lanes.now.m lanes.now.n lanes.now.cost.now lanes.now.cap.now plan.old) plan.new }
{
    places(plan);
    let mut free = FreeLanes {
        cap: [0u32; 2048],
        ways: [0u64; 32],
        doors: [0u32; 64],
    };
    let mut load = Load {
        x: [0u32; 2048],
        serves: [0u32; 64],
    };
    part(lanes, pot, plan, &mut free, &mut load);
    settle(lanes, plan, &mut free, &mut load);
}

// The check of a plan and its potentials.
ghost use Rattle.std.specs.Prelude.{◌≡◌, ◌+◌, ◌<◌, ◌≤◌, true};
ghost use Rattle.transport.specs.Curve.{amounts_at};
ghost use Rattle.residual.specs.inner.Cells.{cells};
ghost use Rattle.residual.specs.inner.Network.{get};
ghost use Rattle.slackcheck.specs.inner.Checked.{Levels, CheckReady, RowReady, RowChecked, RowsChecked, Told, Few, Got, ColumnsChecked, Checked};

use residual::lanes::{Flow, Lanes};
use std::num::wrapping_sub_u32;

// The difference of two numbers modulo 2^32, where an amount is not 0; else 0.
fn where_some(amount: u32, a: u32, b: u32) -> u32
    ensures { Told amount a b result }
{
    if 0 < amount {
        return wrapping_sub_u32(a, b);
    }
    0
}

// Does source i send this amount, on lanes within their ceilings that are slack, each with less than 2^20, so that sums fit? Where a lane with room
// is too cheap, a lane in use too dear, or an amount above its ceiling, a difference modulo 2^32 has its top bit set. No branch, and no
// comparison of words without signs, which plain vectors do not have: four lanes are looked at at a time.
fn row_good(lanes: &Lanes<'_>, flow: &Flow, i: usize, amount: u32) -> bool
    requires { RowReady lanes.now.n (cells lanes.now.cost.now) flow.now.pot i }
    ensures { result ≡ true →
        RowChecked lanes.now.n (cells lanes.now.cost.now) (cells lanes.now.cap.now) (cells flow.now.x) flow.now.pot i amount }
{
    let cost = lanes.cost;
    let cap = lanes.cap;
    let x = &flow.x;
    let pot = &flow.pot;
    let p = pot[i];
    let mut signs: u32 = 0;
    let mut all: u32 = 0;
    let mut sent: u32 = 0;
    for j in 0..lanes.n {
        let k = i * 64 + j;
        let part = x[k];
        let reach = cost[k] + p;
        let level = pot[32 + j];
        let room = wrapping_sub_u32(cap[k], part);
        let cheap = where_some(room, reach, level);
        let dear = where_some(part, level, reach);
        signs = signs | cheap | dear | room;
        all = all | part;
        sent = sent + part % 1_048_576;
    }
    (signs < 2_147_483_648) & (all < 1_048_576) & (sent == amount)
}

// What source i sends at a split of what both plants make.
fn amount_at(i: usize, split: u32, made: u32, supply: &[u32; 32]) -> u32
    requires { (i < 32) × (split ≤ made) }
    ensures { result ≡ amounts_at made (λ k. get supply.now k) split i }
{
    if i == 0 {
        return split;
    }
    if i == 1 {
        return made - split;
    }
    supply[i]
}

// Do all sources?
fn rows_good(lanes: &Lanes<'_>, split: u32, made: u32, supply: &[u32; 32], flow: &Flow) -> bool
    requires check_ready { CheckReady lanes.now.m lanes.now.n (cells lanes.now.cost.now) }
    requires split_le_made { split ≤ made }
    requires levels { Levels flow.now.pot }
    ensures { result ≡ true →
        RowsChecked lanes.now.n (cells lanes.now.cost.now) (cells lanes.now.cap.now) (cells flow.now.x) flow.now.pot
        (amounts_at made (λ k. get supply.now k) split) lanes.now.m }
{
    for i in 0..lanes.m {
        let amount = amount_at(i, split, made, supply);
        if !row_good(lanes, flow, i, amount) {
            return false;
        }
    }
    true
}

// Adds what source i sends to what the terminals get.
fn add_row(n: usize, i: usize, x: &[u32; 2048], got: &mut [u32; 64])
    requires few { Few (i + 1) n (cells x.now) }
    requires got { Got n (cells x.now) i got.old }
    ensures { Got n (cells x.now) (i + 1) got.new }
{
    for j in 0..n {
        got[j] = got[j] + x[i * 64 + j];
    }
}

// What each terminal gets.
fn column_sums(m: usize, n: usize, x: &[u32; 2048]) -> [u32; 64]
    requires { Few m n (cells x.now) }
    ensures { Got n (cells x.now) m result }
{
    let mut got = [0u32; 64];
    for i in 0..m {
        add_row(n, i, x, &mut got);
    }
    got
}

// Do all terminals get their demands?
fn columns_good(m: usize, n: usize, demand: &[u32; 96], x: &[u32; 2048]) -> bool
    requires { Few m n (cells x.now) }
    ensures { result ≡ true → ColumnsChecked m (cells x.now) demand.now n }
{
    let got = column_sums(m, n, x);
    for j in 0..n {
        if got[j] != demand[32 + j] {
            return false;
        }
    }
    true
}

// Are all potentials where step 1 leaves them?
fn levels_good(pot: &[u32; 96]) -> bool
    ensures { result ≡ true → Levels pot.now }
{
    for v in 0..96 {
        if pot[v] < 416_000_000 {
            return false;
        }
        if 800_000_000 < pot[v] {
            return false;
        }
    }
    true
}

// Is the plan one at this split within the ceilings, and slack? Any answer no will do: a cheapest plan is then found by paths.
pub fn good(
    lanes: &Lanes<'_>,
    split: u32,
    made: u32,
    supply: &[u32; 32],
    demand: &[u32; 96],
    flow: &Flow,
) -> bool
    requires check_ready { CheckReady lanes.now.m lanes.now.n (cells lanes.now.cost.now) }
    requires split_le_made { split ≤ made }
    ensures { result ≡ true →
        Checked lanes.now.m lanes.now.n lanes.now.cost.now lanes.now.cap.now supply.now demand.now made split flow.now.x flow.now.pot }
{
    if !levels_good(&flow.pot) {
        return false;
    }
    if !rows_good(lanes, split, made, supply, flow) {
        return false;
    }
    columns_good(lanes.m, lanes.n, demand, &flow.x)
}

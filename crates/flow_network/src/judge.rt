// A network in slices: refusals 30 and 27, or its cheapest flow.
ghost use Rattle.std.specs.Prelude.{◌≡◌, ◌||◌, ◌<◌, ltb, length};
ghost use Rattle.flow_case.specs.inner.Build.{AtMostAll, Given};
ghost use Rattle.flow_network.specs.inner.Ready.{Arcs};
ghost use Rattle.flow_case.specs.inner.Slices.{net_of};
ghost use Rattle.flow_network.specs.inner.Judged.{bad_name_in, Holding, Judged};
ghost use Rattle.flow_network.specs.Answer.{outcome, count_in, count_of, slices_of};

use crate::Carried;
use crate::carry::carry;
use flow_case::checks::{dear, over, uneven};
use flow_case::rows::{copy_front, fill_haves};
use refusal::{Cause, Refusal};

// Is the place none, or the table not of the named arc?
fn bad_name(ceilings: &[u64], place: usize, table: &[u64]) -> bool
    requires { AtMostAll 4000 ceilings.now }
    ensures { result ≡ bad_name_in ceilings.now place table.now }
{
    place < 1
        || ceilings.len() < place
        || table.len() as u64 != ceilings[place - 1] + 1
        || dear(table)
}

// Is a lent slice shorter than the arcs?
fn too_short(
    n: usize,
    flow: usize,
    starts: usize,
    ends: usize,
    ceilings: usize,
    costs: usize,
) -> bool
    ensures { result ≡ (ltb flow n || (ltb starts n || (ltb ends n || (ltb ceilings n || ltb costs n)))) }
{
    flow < n || starts < n || ends < n || ceilings < n || costs < n
}

// The same once it is known what each node has.
fn judge_by(
    gives: &[u64],
    takes: &[u64],
    haves: &[u64],
    tails: &[u64],
    heads: &[u64],
    capacities: &[u64],
    prices: &[i64],
    place: usize,
    table: &[u64],
    flow: &mut [u64],
    starts: &mut [u64],
    ends: &mut [u64],
    ceilings: &mut [u64],
    costs: &mut [i64],
) -> Result<Carried, Refusal>
    requires arcs { Arcs (length gives.now) tails.now heads.now capacities.now prices.now }
    requires given { Given gives.now takes.now }
    requires holding { Holding gives.now heads.now capacities.now haves.now }
    ensures { Judged
        (net_of gives.now takes.now tails.now heads.now capacities.now prices.now)
        tails.now heads.now capacities.now prices.now place table.now (outcome result)
        (slices_of flow.old starts.old ends.old ceilings.old costs.old)
        (slices_of flow.new starts.new ends.new ceilings.new costs.new) ×
        (count_in result ≡ count_of (outcome result) (length tails.now)) }
{
    if over(haves, takes)
        || bad_name(capacities, place, table)
        || too_short(
            tails.len(),
            flow.len(),
            starts.len(),
            ends.len(),
            ceilings.len(),
            costs.len(),
        )
    {
        return Err(Cause::Limits.at(0));
    }
    if uneven(gives, takes, haves) {
        return Err(Cause::NoPlan.at(0));
    }
    let Some(total) = carry(
        gives,
        takes,
        haves,
        tails,
        heads,
        capacities,
        prices,
        place - 1,
        table,
        flow,
    ) else {
        return Err(Cause::NoPlan.at(0));
    };
    copy_front(tails, starts);
    copy_front(heads, ends);
    copy_front(capacities, ceilings);
    copy_front(prices, costs);
    Ok(Carried {
        total,
        arcs: tails.len() as u64,
    })
}

// Refusal 30 for the amounts, the name, the table and the room; 27 where there is no flow; else the cheapest flow and the arcs, written.
pub fn judge(
    gives: &[u64],
    takes: &[u64],
    tails: &[u64],
    heads: &[u64],
    capacities: &[u64],
    prices: &[i64],
    place: usize,
    table: &[u64],
    flow: &mut [u64],
    starts: &mut [u64],
    ends: &mut [u64],
    ceilings: &mut [u64],
    costs: &mut [i64],
) -> Result<Carried, Refusal>
    requires arcs { Arcs (length gives.now) tails.now heads.now capacities.now prices.now }
    requires given { Given gives.now takes.now }
    ensures { Judged
        (net_of gives.now takes.now tails.now heads.now capacities.now prices.now)
        tails.now heads.now capacities.now prices.now place table.now (outcome result)
        (slices_of flow.old starts.old ends.old ceilings.old costs.old)
        (slices_of flow.new starts.new ends.new ceilings.new costs.new) ×
        (count_in result ≡ count_of (outcome result) (length tails.now)) }
{
    let m = gives.len();
    let mut cells = [0; 32];
    fill_haves(heads, capacities, gives, &mut cells);
    judge_by(
        gives,
        takes,
        &cells[0..m],
        tails,
        heads,
        capacities,
        prices,
        place,
        table,
        flow,
        starts,
        ends,
        ceilings,
        costs,
    )
}

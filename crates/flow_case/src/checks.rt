// Tests of a network whose numbers lie in slices.
ghost use Rattle.std.specs.Prelude.{◌≡◌, ◌+◌, ◌-◌, ◌≤◌, ◌<◌, length, get_or};
ghost use Rattle.transport.specs.Sum.{sum};
ghost use Rattle.flow_case.specs.inner.Build.{AtMostAll, over_at, under_at, dear_at, uneven_in, Given};
ghost use Rattle.flow_problem.specs.Answer.{any_below};

// Is an amount above 4,000?
pub fn over(haves: &[u64], takes: &[u64]) -> bool
    requires { length haves.now ≡ length takes.now }
    ensures { result ≡ any_below (length haves.now) (over_at haves.now takes.now) }
{
    haves
        .iter()
        .zip(takes)
        .any(|(have, take)| 4000 < have.saturating_sub(*take))
}

// Is an amount below 0?
pub fn under(haves: &[u64], takes: &[u64]) -> bool
    requires { length haves.now ≡ length takes.now }
    ensures { result ≡ any_below (length haves.now) (under_at haves.now takes.now) }
{
    haves.iter().zip(takes).any(|(have, take)| have < take)
}

// Is an entry above 1,000,000,000?
pub fn dear(table: &[u64]) -> bool
    ensures { result ≡ any_below (length table.now) (dear_at table.now) }
{
    table.iter().any(|entry| 1_000_000_000 < *entry)
}

// The sum of at most 32 numbers.
pub fn sum_of(l: &[u64]) -> u64
    requires { (length l.now ≤ 32) × AtMostAll 10000000000 l.now }
    ensures { result ≡ sum (length l.now) (λ i. get_or l.now i 0) }
{
    l.iter().sum()
}

// Do the supplies not sum to 0, or is an amount below 0?
pub fn uneven(gives: &[u64], takes: &[u64], haves: &[u64]) -> bool
    requires { Given gives.now takes.now × (length haves.now ≡ length takes.now) }
    ensures { result ≡ uneven_in gives.now takes.now haves.now }
{
    let given = sum_of(gives);
    let taken = sum_of(takes);
    if given != taken {
        return true;
    }
    under(haves, takes)
}

// The tests of a case, in the order of the refusals.
ghost use Rattle.std.specs.Prelude.{◌≡◌, true, ℕ, ◌+◌, ◌-◌, ◌*◌, ◌≤◌, ◌<◌, length, get_or};
ghost use Rattle.transport.specs.Sum.{sum};
ghost use Rattle.problem.specs.Range.{outside};
ghost use Rattle.problem.specs.Outcome.{form_refusal};
ghost use Rattle.lent_case.specs.Lent.{case_of};
ghost use Rattle.problem.specs.inner.LentTests.{first_above, first_outside, amounts_refusal, runs_refusal, ceilings_refusal, entries_refusal};
ghost use Rattle.problem.specs.inner.LentTests.{splits_refusal, AtMost, Amounts, Within};
ghost use Rattle.validation.specs.inner.Above.{NoneAbove};
ghost use Rattle.validation.specs.Verdict.{found, verdict, made_of};

use lent_case::Case;
use refusal::{Cause, Refusal};
use size::limits::Size;

// A number that none of sixteen is above: it has each bit that one of them has.
fn all_bits(s: &[u64], k: usize) -> u64
    requires { k + 16 ≤ length s.now }
    ensures { NoneAbove s.now k 16 result }
{
    let mut all: u64 = 0;
    for i in 0..16 {
        all |= s[k + i];
    }
    all
}

// Do the bits of sixteen numbers tell that none is above the limit?
fn fits(s: &[u64], k: usize, limit: u64) -> bool
    requires { k + 16 ≤ length s.now }
    ensures { result ≡ true → NoneAbove s.now k 16 limit }
{
    all_bits(s, k) <= limit
}

// How far no number is above the limit, sixteen at a time, as far as their bits tell it.
// Stays: sixteen numbers are taken at a step; number by number the planner is slower.
fn none_above(s: &[u64], limit: u64) -> usize
    ensures { (result ≤ length s.now) × ((j : ℕ) → j < result → get_or s.now j 0 ≤ limit) }
{
    let mut k: usize = 0;
    while k + 16 <= s.len() {
        if !fits(s, k, limit) {
            return k;
        }
        k += 16;
    }
    k
}

// The first number above the limit.
fn first_above(s: &[u64], limit: u64) -> Option<usize>
    ensures { found result ≡ first_above limit s.now }
{
    let start = none_above(s, limit);
    for k in start..s.len() {
        if limit < s[k] {
            return Some(k);
        }
    }
    None
}

// Is the unit cost below -1,000,000 or above 1,000,000?
pub fn out_of_range(cost: i64) -> bool
    ensures { result ≡ outside cost }
{
    cost < -1_000_000 || 1_000_000 < cost
}

// The first lane in row order whose unit cost is below -1,000,000 or above 1,000,000.
// Stays: a rule of the project wants nested loops here that a label leaves with the lane found, over rows that are parts of the slice.
pub fn first_outside(m: usize, n: usize, costs: &[i64]) -> Option<usize>
    requires { length costs.now ≡ m * n }
    ensures { found result ≡ first_outside costs.now }
{
    let mut start: usize = 0;
    'lanes: {
        for i in 0..m {
            let end = start + n;
            let row = &costs[start..end];
            for j in 0..n {
                if out_of_range(row[j]) {
                    break 'lanes Some(start + j);
                }
            }
            start = end;
        }
        None
    }
}

// The sum of at most 64 numbers, each at most 4,000.
pub fn sum_of(s: &[u64]) -> u64
    requires few { length s.now ≤ 64 }
    requires small { AtMost 4000 s.now }
    ensures { result ≡ sum (length s.now) (λ j. get_or s.now j 0) }
{
    let mut total: u64 = 0;
    for x in s {
        total += *x;
    }
    total
}

// Test 4: a supply or a demand above 4,000.
fn amounts_test(supplies: &[u64], demands: &[u64]) -> Result<(), Refusal>
    ensures { verdict result ≡ amounts_refusal supplies.now demands.now }
{
    if let Some(k) = first_above(supplies, 4_000) {
        return Err(Cause::Amount.at(k as u64 + 1));
    }
    if let Some(k) = first_above(demands, 4_000) {
        return Err(Cause::Amount.at((supplies.len() + k) as u64 + 1));
    }
    Ok(())
}

// Test 23: a least run above its plant's supply.
fn runs_test(run1: u64, run2: u64, supplies: &[u64]) -> Result<(), Refusal>
    requires { 2 ≤ length supplies.now }
    ensures { verdict result ≡ runs_refusal run1 run2 supplies.now }
{
    if supplies[0] < run1 {
        return Err(Cause::LeastRun.at(1));
    }
    if supplies[1] < run2 {
        return Err(Cause::LeastRun.at(2));
    }
    Ok(())
}

// Test 26: a ceiling slice of another length than the lanes, or a ceiling above 4,000.
fn ceilings_test(lanes: usize, ceilings: &[u64]) -> Result<(), Refusal>
    ensures { verdict result ≡ ceilings_refusal lanes ceilings.now }
{
    if ceilings.len() != lanes {
        return Err(Cause::Ceiling.at(0));
    }
    if let Some(k) = first_above(ceilings, 4_000) {
        return Err(Cause::Ceiling.at(k as u64 + 1));
    }
    Ok(())
}

// Tests 1 to 6, with 23 after 4 and 26 after 5.
pub fn form_test(case: &Case<'_>) -> Result<(), Refusal>
    ensures { (p s f : ℕ) → verdict result ≡ form_refusal (case_of case.now p s f) }
{
    let m = case.m;
    let n = case.n;
    let costs = case.costs;
    let supplies = case.supplies;
    let demands = case.demands;
    let table = case.table;
    Size::checked(m, n)?;
    let lanes = m * n;
    if costs.len() != lanes || supplies.len() != m || demands.len() != n {
        return Err(Cause::Lengths.at(0));
    }
    amounts_test(supplies, demands)?;
    runs_test(case.run1, case.run2, supplies)?;
    if let Some(k) = first_outside(m, n, costs) {
        return Err(Cause::UnitCost.at(k as u64 + 1));
    }
    ceilings_test(lanes, case.ceilings)?;
    if table.len() as u64 != supplies[0] + 1 {
        return Err(Cause::Entries.at(0));
    }
    Ok(())
}

// Tests 7 and 8, and d.
pub fn made_of(run1: u64, run2: u64, supplies: &[u64], demands: &[u64]) -> Result<u64, Cause>
    requires { Amounts run1 run2 supplies.now demands.now }
    ensures { result ≡ made_of run1 run2 supplies.now demands.now }
{
    let all = sum_of(demands);
    let stock = sum_of(&supplies[2..]);
    if all < stock + run1 + run2 {
        return Err(Cause::TooLittleWanted);
    }
    let made = all - stock;
    if supplies[0] + supplies[1] < made {
        return Err(Cause::TooMuchWanted);
    }
    Ok(made)
}

// Test 9, at the splits lo to hi.
pub fn entries_test(table: &[u64], lo: u64, hi: u64) -> Result<(), Refusal>
    requires { Within table.now lo hi }
    ensures { verdict result ≡ entries_refusal table.now lo hi }
{
    let start = lo as usize;
    let end = hi as usize + 1;
    let part = &table[start..end];
    if let Some(k) = first_above(part, 1_000_000_000) {
        return Err(Cause::Entry.at(lo + k as u64));
    }
    Ok(())
}

// Tests 9 and 11, at the splits lo to hi: the entries, and the room in the three slices to be written.
pub fn splits_test(
    table: &[u64],
    lo: u64,
    hi: u64,
    lanes: usize,
    plan: usize,
    splits: usize,
    freights: usize,
) -> Result<(), Refusal>
    requires { Within table.now lo hi }
    ensures { verdict result ≡ splits_refusal table.now lo hi lanes plan splits freights }
{
    entries_test(table, lo, hi)?;
    let count = (hi - lo) as usize + 1;
    if plan < lanes || splits < count || freights < count {
        return Err(Cause::Room.at(0));
    }
    Ok(())
}

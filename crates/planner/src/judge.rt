// Tests 1 to 9 of a case with least runs 0 and the ceiling 4,000 on every lane, which need no plan: ℓ and u are those within the supplies.
ghost use Rattle.std.specs.Prelude.{◌≡◌, ℕ};
ghost use Rattle.problem.specs.Outcome.{form_refusal};
ghost use Rattle.validation.specs.Verdict.{verdict};
ghost use Rattle.planner.specs.Judge.{judged, case_refusal, free_case};

use lent_case::Case;
use refusal::Refusal;
use size::limits::Size;
use validation::tests::{entries_test, form_test, made_of};

// Tests 1 to 6, with 23 and 26 where they stand.
fn free_form(
    m: usize,
    n: usize,
    costs: &[i64],
    supplies: &[u64],
    demands: &[u64],
    table: &[u64],
) -> Result<(), Refusal>
    ensures { (p s f : ℕ) →
        verdict result ≡ form_refusal (free_case m n costs.now supplies.now demands.now table.now p s f) }
{
    Size::checked(m, n)?;
    let lanes = m * n;
    // The ceiling 4,000 for as many lanes as a case can have.
    let ceilings = [4_000; 2048];
    form_test(&Case {
        m,
        n,
        run1: 0,
        run2: 0,
        costs,
        supplies,
        demands,
        ceilings: &ceilings[..lanes],
        table,
    })
}

// Tests 1 to 9, with 23, 26 and 27 where they stand: these refuse none here.
pub fn judge(
    m: usize,
    n: usize,
    costs: &[i64],
    supplies: &[u64],
    demands: &[u64],
    table: &[u64],
) -> Result<(), Refusal>
    ensures { (p s f : ℕ) →
        judged result ≡ case_refusal (free_case m n costs.now supplies.now demands.now table.now p s f) }
{
    free_form(m, n, costs, supplies, demands, table)?;
    let made = made_of(0, 0, supplies, demands)?;
    let lo = made.saturating_sub(supplies[1]);
    let hi = supplies[0].min(made);
    entries_test(table, lo, hi)
}

// From a case in balance to its plan.
ghost use Rattle.std.specs.Prelude.{length};
ghost use Rattle.lent_case.specs.Lent.{case_of};
ghost use Rattle.planner.specs.inner.Ready.{OnBalance};
ghost use Rattle.planner.specs.Answer.{outcome, slices, Answered};
ghost use Rattle.planner.specs.inner.CaseCurve.{Climbed};

use crate::{Planned, Tried};
use engine_arrays::work::{copy_rows, gather_rows, raise_rows, supplied, wanted};
use lent_case::Case;
use refusal::Cause;
use residual::lanes::{Flow, Lanes};
use spanningtree::tree::Tree;
use split_range::begin::begin;
use split_range::trial::Trial;
use sweep::curve::sweep;
use sweep::freight::lowered;
use validation::tests::{splits_test, sum_of};

// Prepares the working arrays with raised costs, has the engine find the first and the last split, tests 27, 9 and 11, has the engine sweep
// the splits, copies the plan out and lowers total and freight. How step 1 is tried does not show in the answer. Any
// count and flag will do beside it: trials alone read them.
pub fn solve(
    trial: Trial,
    case: &Case<'_>,
    made: u64,
    plan: &mut [u64],
    splits: &mut [u64],
    freights: &mut [i64],
) -> Tried
    requires { OnBalance (case_of case.now (length plan.old) (length splits.old) (length freights.old)) made }
    ensures answered { Answered (case_of case.now (length plan.old) (length splits.old) (length freights.old)) (outcome result.answer)
        (slices plan.old splits.old freights.old) (slices plan.new splits.new freights.new) }
    ensures climbed { Climbed (case_of case.now (length plan.old) (length splits.old) (length freights.old)) (outcome result.answer) }
{
    let m = case.m;
    let n = case.n;
    let mut cost = [0u32; 2048];
    raise_rows(m, n, case.costs, &mut cost);
    let mut cap = [0u32; 2048];
    copy_rows(m, n, case.ceilings, &mut cap);
    let amounts = supplied(case.supplies);
    let wants = wanted(case.demands);
    let added = 1_000_000 * sum_of(case.demands);
    let all = made as u32;
    let lanes = Lanes {
        m,
        n,
        cost: &cost,
        cap: &cap,
    };
    let mut flow = Flow {
        x: [0u32; 2048],
        serves: [0u32; 64],
        pot: [0u32; 96],
    };
    let mut tree = Tree::new();
    let started = begin(
        trial,
        &lanes,
        &amounts,
        &wants,
        case.run1 as u32,
        case.run2 as u32,
        all,
        &mut flow,
        &mut tree,
    );
    let passed = started.passed;
    let Some(range) = started.range else {
        return Tried {
            answer: Err(Cause::NoPlan.at(0)),
            passed,
            searched: 0,
        };
    };
    let lo = range.lo;
    let hi = range.hi;
    if let Err(refusal) = splits_test(
        case.table,
        lo,
        hi,
        m * n,
        plan.len(),
        splits.len(),
        freights.len(),
    ) {
        return Tried {
            answer: Err(refusal),
            passed,
            searched: 0,
        };
    }
    let mut kept = [0u32; 2048];
    let best = sweep(
        started.wide,
        &lanes,
        &wants,
        lo,
        hi,
        case.table,
        added,
        splits,
        freights,
        &mut flow,
        &mut kept,
        &mut tree,
    );
    gather_rows(m, n, &kept, plan);
    let stops = best.stops;
    let total = lowered(best.total, added);
    let freight = lowered(best.freight, added);
    Tried {
        answer: Ok(Planned {
            split: best.split,
            total,
            freight,
            stops,
        }),
        passed,
        searched: best.searched,
    }
}

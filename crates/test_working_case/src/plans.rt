// The working case and its marks planned from the store, and the model's copies planned by themselves.
use lent_case::Case;
use test_calls::{plan_case, plan_mark};
use test_compare::Met;
use test_draws::slices::first;
use test_history::model::{Copy, Model};
use test_history::refusals::mark_refusal;
use test_plans::{Planning, plan};

// How many entries the model's table has.
fn entries(c: &Copy) -> usize {
    (c.supplies[0] as usize).saturating_add(1)
}

// Plans a copy of the model.
fn plan_copy(c: &Copy) -> Planning<13, 16> {
    let lanes = c.lanes();
    plan(&Case {
        m: c.m,
        n: c.n,
        run1: c.run1,
        run2: c.run2,
        costs: first(&c.costs, lanes),
        supplies: first(&c.supplies, c.m),
        demands: first(&c.demands, c.n),
        ceilings: first(&c.ceilings, lanes),
        table: first(&c.table, entries(c)),
    })
}

// Plans both.
pub fn plan_both(store: &[u64], c: &Copy) -> Met {
    let x: Planning<13, 16> = plan_case(1, store);
    Met::by(x == plan_copy(c), x.answer)
}

// What planning mark k should say and write.
fn plan_held(model: &Model, k: usize) -> Planning<13, 16> {
    match mark_refusal(model, k) {
        Ok(()) => plan_copy(&model.held(k).unwrap_or(model.case)),
        Err(refusal) => Planning {
            answer: Err(refusal),
            plan: [7; 13],
            splits: [7; 16],
            freights: [7; 16],
        },
    }
}

// Plans a mark by the store and by the model's copy of it.
pub fn plan_mark_both(store: &[u64], model: &Model, k: usize) -> Met {
    let x: Planning<13, 16> = plan_mark(1, k, store);
    Met::by(x == plan_held(model, k), x.answer)
}

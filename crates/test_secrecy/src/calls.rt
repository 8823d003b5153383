// One call on two stores, and how what they say and show compares.
use test_calls::{Shown, Tariff, make, plan_case, see_table, see_tariff};
use test_compare::Met;
use test_compare::draws::drawn;
use test_draws::{after, below};
use test_plans::Planning;

fn see_tariffs(who: usize, a: &[u64], b: &[u64]) -> Met {
    let x: Tariff<7, 4, 3> = see_tariff(who, a);
    Met::by(x == see_tariff(who, b), x.said)
}

fn see_tables(who: usize, a: &[u64], b: &[u64]) -> Met {
    let x: Shown<16> = see_table(who, a);
    Met::by(x == see_table(who, b), x.said)
}

pub fn plan_both(who: usize, a: &[u64], b: &[u64]) -> Met {
    let x: Planning<6, 16> = plan_case(who, a);
    Met::by(x == plan_case(who, b), x.answer)
}

pub fn call_both(who: usize, seed: u64, a: &mut [u64], b: &mut [u64]) -> Met {
    let call = drawn(seed);
    let see = below(after(after(after(after(after(seed))))), 8);
    match see {
        0 => see_tables(who, a, b),
        1 => plan_both(who, a, b),
        2 | 3 => see_tariffs(who, a, b),
        _ => {
            let x = make(who, call, a);
            Met::by(x == make(who, call, b), x)
        }
    }
}

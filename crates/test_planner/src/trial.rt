// One trial: the planner runs on the case of the bench, and its answer is checked and counted.
use crate::planned::{Outcome, check};
use test_referee::bench::{DEMANDS, SUPPLIES, Sizes, TALLY, TIES, sizes_of};
use test_referee::cells::{add, at, cell, part};
use test_referee::compare::{Check, Checked, Planned, Told, expect, hold, is_stop};
use test_referee::listing::list;
use test_referee::paper::{Span, Verdict, judge, judge_splits, listed_span, span_of};

// The tally: the expected answers by number (0 for a plan); what planned cases show; listed cases with plans and without;
// cases, differences, the first case with one and its check.
const FACTS: u64 = 28;

const LISTED: u64 = 37;

const CASES: u64 = 39;

// Adds counts to the cells from `first` on.
fn count(b: &mut [u64], counts: &[u64], first: u64) {
    for (k, n) in counts.iter().enumerate() {
        add(b, first.saturating_add(k as u64), *n);
    }
}

// What a case adds to the tally: one case and, where a check failed, a difference; the first of these is kept.
fn closing(b: &[u64], checked: Checked) -> [u64; 4] {
    match checked {
        Ok(()) => [1, 0, 0, 0],
        Err(_) if at(b, TALLY + CASES + 1) != 0 => [1, 1, 0, 0],
        Err(check) => {
            let case = at(b, TALLY + CASES).saturating_add(1);
            [1, 1, case, check as u64]
        }
    }
}

// Counts a case.
pub fn close(b: &mut [u64], checked: Checked) {
    let counts = closing(b, checked);
    count(b, &counts, TALLY + CASES);
}

// What is judged of a listed case: its splits, the answer expected, whether the listing agrees with the tests.
#[derive(Clone, Copy, PartialEq, Eq, Debug, Drop)]
struct Ruling {
    s: Span,
    want: Told,
    sound: bool,
}

// How many cells are not 0.
fn some(s: &[u64]) -> u64 {
    s.iter().filter(|x| **x != 0).count() as u64
}

// What a planned case shows.
fn facts(z: Sizes, s: Span, want: Planned, plans: u64, b: &[u64]) -> [u64; 9] {
    let plan_ties = cell(b, TIES, want.split);
    [
        u64::from(s.width == 1),
        u64::from(1 < want.ties),
        u64::from(1 < plan_ties),
        plans,
        u64::from(z.m == 2),
        u64::from(z.n == 1),
        u64::from(some(part(b, SUPPLIES, z.m)) < z.m),
        u64::from(some(part(b, DEMANDS, z.n)) < z.n),
        u64::from(!is_stop(s, b, want.split)),
    ]
}

// Counts the answer expected and, of a planned case, what it shows.
fn tally(z: Sizes, s: Span, want: Told, plans: u64, b: &mut [u64]) {
    match want {
        Ok(plan) => {
            add(b, TALLY, 1);
            let counts = facts(z, s, plan, plans, b);
            count(b, &counts, TALLY + FACTS);
        }
        Err(refusal) => add(b, TALLY.saturating_add(refusal.number), 1),
    }
}

// Whether a case passes the tests before the balance.
fn listable(z: Sizes, b: &[u64]) -> bool {
    match judge(z, span_of(z, b), b) {
        Ok(()) => true,
        Err(refusal) => matches!(refusal.number, 7 | 8),
    }
}

// Lists the plans of a case that passes the tests before the balance, and counts such cases with plans and without.
fn list_case(z: Sizes, b: &mut [u64]) -> Option<u64> {
    if !listable(z, b) {
        return Some(0);
    }
    let plans = list(z, b);
    add(b, TALLY + LISTED + u64::from(plans == Some(0)), 1);
    plans
}

// Whether the listing agrees with the tests up to 8: of a refused case no plan; else plans at each split of one
// stretch within supplies and runs.
fn sound(v: Verdict, all: Span, s: Span, plans: Option<u64>) -> bool {
    if v.is_err() {
        return plans == Some(0);
    }
    let within = all.first <= s.first && s.last <= all.last;
    let one_stretch = s.last.saturating_add(1).saturating_sub(s.first) == s.width;
    plans.is_some() && (s.width == 0 || (within && one_stretch))
}

// Judges a case whose plans are listed.
fn judged(z: Sizes, plans: Option<u64>, b: &[u64]) -> Ruling {
    let all = span_of(z, b);
    let v = judge(z, all, b);
    let s = listed_span(all, b);
    let want = expect(judge_splits(v, z, s, b), z, b);
    Ruling {
        s,
        want,
        sound: sound(v, all, s, plans),
    }
}

// Runs and checks a case small enough for the listing.
pub fn run_small(b: &mut [u64]) -> Outcome {
    let z = sizes_of(b);
    let plans = list_case(z, b);
    let j = judged(z, plans, b);
    tally(z, j.s, j.want, plans.unwrap_or(u64::MAX), b);
    let o = check(z, j.s, j.want, true, b);
    Outcome {
        checked: o.checked.and(hold(j.sound, Check::Listing)),
        got: o.got,
    }
}

// Runs and checks a case whose least freights are known.
pub fn run_known(b: &[u64]) -> Outcome {
    let z = sizes_of(b);
    let s = span_of(z, b);
    let v = judge_splits(judge(z, s, b), z, s, b);
    check(z, s, expect(v, z, b), false, b)
}

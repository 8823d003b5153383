// What the working case shows, held to the model.
use refusal::{Cause, Refusal};
use test_calls::{Limits, Shown, Tariff, marks_set, see_limits, see_table, see_tariff};
use test_history::model::{Copy, Model, cut};

// A role's verdict where only the planner may.
fn alone(role: usize) -> Result<(), Refusal> {
    if role == 1 {
        Ok(())
    } else {
        Err(Cause::Role.at(0))
    }
}

fn tariff_seen(store: &[u64], c: &Copy) -> bool {
    let want = Tariff {
        said: Ok(()),
        costs: c.costs,
        supplies: c.supplies,
        demands: c.demands,
    };
    want == see_tariff(4, store)
}

fn table_seen(store: &[u64], c: &Copy) -> bool {
    let want = Shown {
        said: Ok(()),
        cells: cut(c.table, c.supplies[0], 7),
    };
    want == see_table(2, store)
}

fn limits_seen(store: &[u64], c: &Copy, role: usize) -> bool {
    let mut want = Limits {
        said: alone(role),
        runs: [7; 3],
        ceilings: [7; 13],
    };
    if role == 1 {
        want.runs = [c.run1, c.run2, 7];
        want.ceilings = c.ceilings;
    }
    want == see_limits(role, store)
}

fn marks_seen(store: &[u64], model: &Model, role: usize) -> bool {
    let mut cells = [7u64; 9];
    if role == 1 {
        for (cell, mark) in cells.iter_mut().zip(model.marks.iter()) {
            *cell = u64::from(mark.is_some());
        }
    }
    let want = Shown {
        said: alone(role),
        cells,
    };
    want == marks_set(role, store)
}

// Slices that are too short: refusal 11, and nothing written.
fn short(store: &[u64]) -> bool {
    let said = Err(Cause::Room.at(0));
    let no_runs = Limits {
        said,
        runs: [7; 1],
        ceilings: [7; 13],
    };
    let no_ceilings = Limits {
        said,
        runs: [7; 2],
        ceilings: [7; 1],
    };
    let no_marks = Shown {
        said,
        cells: [7; 7],
    };
    no_runs == see_limits(1, store)
        && no_ceilings == see_limits(1, store)
        && no_marks == marks_set(1, store)
}

pub fn seen(store: &[u64], model: &Model, role: usize) -> bool {
    tariff_seen(store, &model.case)
        && table_seen(store, &model.case)
        && limits_seen(store, &model.case, role)
        && marks_seen(store, model, role)
        && short(store)
}

// A case planned as usual, without the simplex, and with what it answers spoiled: the answers and the cells written must be the same.
use lent_case::Case;
use split_range::trial::Trial;
use test_plans::Planning;

// How a case was planned, whether a plan of the simplex passed, and how many stretches were searched for.
#[derive(Clone, Copy, PartialEq, Eq, Debug)]
struct Way {
    planning: Planning<2048, 4001>,
    passed: bool,
    searched: u64,
}

// Plans a case by a trial.
fn plan_by(trial: Trial, c: &Case) -> Way {
    let mut plan = [0u64; 2048];
    let mut splits = [0u64; 4001];
    let mut freights = [0i64; 4001];
    let tried = planner::plan_by(trial, c, &mut plan, &mut splits, &mut freights);
    Way {
        planning: Planning {
            answer: tried.answer,
            plan,
            splits,
            freights,
        },
        passed: tried.passed,
        searched: tried.searched,
    }
}

fn trial(simplex: bool, lane: Option<usize>, node: Option<usize>) -> Trial {
    Trial {
        simplex,
        lane,
        node,
    }
}

// What came of a case: is there a plan, did the simplex's pass the check, did a spoiled one fail it, did a spoiled tree go on to the climb, and are
// all answers the same? How many stretches were searched for as usual, and on a spoiled tree?
#[derive(Clone, Copy, PartialEq, Eq, Debug, Drop)]
pub struct Seen {
    pub planned: bool,
    pub passed: bool,
    pub refused: bool,
    pub climbed: bool,
    pub agrees: bool,
    pub searched: u64,
    pub recovered: u64,
}

// Plans a case as usual, without the simplex, with a lane of its plan spoiled, and with a node of its tree spoiled.
pub fn hold(lane: usize, node: usize, c: &Case) -> Seen {
    let usual = plan_by(trial(true, None, None), c);
    let paths = plan_by(trial(false, None, None), c);
    let spoiled = plan_by(trial(true, Some(lane), None), c);
    let cut = plan_by(trial(true, None, Some(node)), c);
    let planned = usual.planning.answer.is_ok();
    Seen {
        planned,
        passed: usual.passed,
        refused: usual.passed && !spoiled.passed,
        climbed: planned && cut.passed,
        agrees: paths.planning == usual.planning
            && spoiled.planning == usual.planning
            && cut.planning == usual.planning
            && !paths.passed,
        searched: usual.searched,
        recovered: cut.searched,
    }
}

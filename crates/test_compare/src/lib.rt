// For programs that hold two working cases to each other, or one to a model: random calls, and how two answers compare.
#![tactic(auto)]

use refusal::Refusal;

pub mod draws;

// How two answers compare.
#[derive(Clone, Copy, PartialEq, Eq, Debug, Drop)]
pub enum Met {
    Done,
    Refused(u64),
    Differ,
}

impl Met {
    // Of two answers that are the same or not, by what one of them says.
    pub fn by<T: Copy>(same: bool, said: Result<T, Refusal>) -> Met {
        match said {
            _ if !same => Met::Differ,
            Ok(_) => Met::Done,
            Err(refusal) => Met::Refused(refusal.cause.number()),
        }
    }

    // Of what is as it should be, or is not.
    pub fn of(right: bool) -> Met {
        if right { Met::Done } else { Met::Differ }
    }

    // Where it is counted: 0, the refusal's number, or 100.
    pub fn place(self) -> usize {
        match self {
            Met::Done => 0,
            Met::Refused(number) => number as usize,
            Met::Differ => 100,
        }
    }
}

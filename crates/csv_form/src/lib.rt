// The form of the two files of a planning case, and the reader of a field and of what stands after it.
#![tactic(auto)]

ghost use Rattle.std.specs.Prelude.{◌≡◌};
ghost use Rattle.refusal.specs.declared.Cause.TheVariants as causes;

use refusal::{Cause, Refusal};

pub mod after;
pub mod field;

// The two files: tariff.csv and production.csv.
#[derive(Clone, Copy, Debug, PartialEq, Eq)]
pub enum Kind {
    Tariff,
    Production,
}

// Refused: the offset that is not of the form.
#[derive(Clone, Copy, Debug, PartialEq, Eq)]
pub struct Misfit {
    pub place: usize,
}

impl From<Misfit> for Refusal {
    ghost from_gives = { λ m r. r ≡ record { cause = causes.Form; place = m.place } };

    fn from(m: Misfit) -> Refusal {
        Cause::Form.at(m.place as u64)
    }
}

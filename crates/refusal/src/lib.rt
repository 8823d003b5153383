// Why a case, a file or a call is refused: a cause, which has the papers' number, and a place.
#![tactic(auto)]

ghost use Rattle.std.specs.Prelude.{◌≡◌};
ghost use Rattle.refusal.specs.Number.{number_of};

// The causes of refusals, by the papers' numbers.
#[derive(Clone, Copy, Debug, PartialEq, Eq)]
pub enum Cause {
    // Not 2 to 32 sources.
    Sources = 1,
    // Not 1 to 64 terminals.
    Terminals = 2,
    // Not a cost for each lane, a supply for each source, a demand for each terminal.
    Lengths = 3,
    // A supply or a demand above 4,000.
    Amount = 4,
    // A unit cost below -1,000,000 or above 1,000,000.
    UnitCost = 5,
    // Not an entry for each output from 0 to a_1.
    Entries = 6,
    // The demands are below the depots' stock and the least runs.
    TooLittleWanted = 7,
    // The demands are above all that can be sent.
    TooMuchWanted = 8,
    // An entry at a split is above 1,000,000,000.
    Entry = 9,
    // A lent slice is too short for the answer, or a store holds no working case.
    Room = 11,
    // A file was not read, or has more than 65,536 bytes.
    File = 20,
    // A byte is not of the form.
    Form = 21,
    // A record has another count of fields.
    Fields = 22,
    // A least run is above its plant's supply.
    LeastRun = 23,
    // There is no such mark, source, terminal, lane or entry.
    NoSuch = 24,
    // The mark was never set.
    Unset = 25,
    // Not a ceiling for each lane, or one above 4,000.
    Ceiling = 26,
    // There is no plan within the ceilings and the least runs, or no flow.
    NoPlan = 27,
    // The high table has another length, or an entry of it is below the low one's or above 1,000,000,000.
    HighEntry = 28,
    // A line of a network is not of the form.
    Line = 29,
    // A network has a size, a range, a node, an arc or a table out of the limits.
    Limits = 30,
    // The role may not do this deed, or there is no such role.
    Role = 31,
    // An entry is above 9,999,999,999, which no field holds.
    WideEntry = 32,
    // A slice is shorter than its text.
    Text = 33,
}

impl Cause {
    // The number that reports, files and callers outside Rattle have.
    pub fn number(self) -> u64
        ensures { result ≡ number_of self }
    {
        self as u64
    }

    // The refusal at a place.
    pub fn at(self, place: u64) -> Refusal
        ensures cause { result.cause ≡ self }
        ensures place { result.place ≡ place }
    {
        Refusal { cause: self, place }
    }
}

// A refusal: its cause, and the place that it is about, 0 where it names none.
#[derive(Clone, Copy, Debug, PartialEq, Eq)]
pub struct Refusal {
    pub cause: Cause,
    pub place: u64,
}

impl From<Cause> for Refusal {
    ghost from_gives = { λ cause r. r ≡ record { cause = cause; place = 0 } };

    fn from(cause: Cause) -> Refusal {
        Refusal { cause, place: 0 }
    }
}

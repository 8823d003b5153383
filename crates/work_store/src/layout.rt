// Where the parts of a store begin.
ghost use Rattle.std.specs.Prelude.{◌≡◌, ◌≤◌};
ghost use Rattle.work_store.specs.Store.{cells_for, demands_at, costs_at, ceilings_at, table_at, in_case, width, start};
ghost use Rattle.work_store.specs.inner.Layout.{Within};

// The flag of mark k is at FLAGS + k.
pub const FLAGS: usize = 1;

// The signature of a working case: the letters YADV, and the layout's version.
pub const SIGNED: usize = 10;

pub const SIGNATURE: u64 = 6_431_496_879_019_655_170;

// The two least runs and the supplies of the working case.
pub const RUN1: usize = 11;

pub const RUN2: usize = 12;

pub const SUPPLIES: usize = 13;

// The size of a working case, by which the parts of its store begin.
#[derive(Clone, Copy, Debug, PartialEq, Eq)]
pub struct Layout {
    pub m: usize,
    pub n: usize,
}

impl Layout {
    // How many cells a store must have.
    pub fn cells_for(self) -> usize
        requires { Within self }
        ensures { result ≡ cells_for self.m self.n }
    {
        let lanes = self.m * self.n;
        9 * (lanes + self.m + self.n + 4_020) + 9 * lanes
    }

    pub fn demands_at(self) -> usize
        requires { self.m ≤ 32 }
        ensures { result ≡ in_case (demands_at self.m) }
    {
        SUPPLIES + self.m
    }

    pub fn costs_at(self) -> usize
        requires { Within self }
        ensures { result ≡ in_case (costs_at self.m self.n) }
    {
        SUPPLIES + self.m + self.n
    }

    pub fn ceilings_at(self) -> usize
        requires { Within self }
        ensures { result ≡ in_case (ceilings_at self.m self.n) }
    {
        SUPPLIES + self.m + self.n + self.m * self.n
    }

    pub fn table_at(self) -> usize
        requires { Within self }
        ensures { result ≡ in_case (table_at self.m self.n) }
    {
        SUPPLIES + self.m + self.n + self.m * self.n + self.m * self.n
    }

    pub fn slot_width(self) -> usize
        requires { Within self }
        ensures { result ≡ width self.m self.n }
    {
        2 + self.m + self.n + self.m * self.n + self.m * self.n + 4_001
    }

    pub fn slot_start(self, k: usize) -> usize
        requires small { Within self }
        requires slot { k ≤ 8 }
        ensures { result ≡ start self.m self.n k }
    {
        RUN1 + k * self.slot_width()
    }
}

// The size of a case, and its limits.
ghost use Rattle.std.specs.Prelude.{◌≡◌};
ghost use Rattle.size.specs.Size.{checked_of};

use refusal::Cause;

#[derive(Clone, Copy, Debug, PartialEq, Eq)]
pub struct Size {
    pub sources: usize,
    pub terminals: usize,
}

impl Size {
    pub const MIN_SOURCES: usize = 2;

    pub const MAX_SOURCES: usize = 32;

    pub const MIN_TERMINALS: usize = 1;

    pub const MAX_TERMINALS: usize = 64;

    // A size within the limits, or the cause of the refusal.
    #[tactic(auto, unfolding(crate::specs::Size::checked_of))]
    pub fn checked(m: usize, n: usize) -> Result<Size, Cause>
        ensures { result ≡ checked_of m n }
    {
        if m < Self::MIN_SOURCES || Self::MAX_SOURCES < m {
            return Err(Cause::Sources);
        }
        if n < Self::MIN_TERMINALS || Self::MAX_TERMINALS < n {
            return Err(Cause::Terminals);
        }
        Ok(Size {
            sources: m,
            terminals: n,
        })
    }
}

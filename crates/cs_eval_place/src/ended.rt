//! What ends a check early, and where.
ghost use Rattle.std.specs.Prelude.{◌≡◌};
ghost use Rattle.cs_eval_place.specs.declared.ended.Ended.TheVariants.{Memory as NoMemory};

use cs_base::Memory;
use std::alloc::{AllocError, AllocFailed};

/// What ends a check before its end.
#[derive(Clone, Copy, Debug, PartialEq, Eq)]
pub enum Ended {
    /// An answer, at the token with this offset.
    Answer(bool, usize),
    /// A trap, at the token with this offset.
    Trap(usize),
    /// There was not enough memory.
    Memory,
}

impl From<Memory> for Ended {
    ghost from_gives = { λ _ e. e ≡ NoMemory };

    fn from(_e: Memory) -> Ended {
        Ended::Memory
    }
}

impl From<AllocError> for Ended {
    ghost from_gives = { λ _ e. e ≡ NoMemory };

    fn from(_e: AllocError) -> Ended {
        Ended::Memory
    }
}

impl<T: Drop> From<AllocFailed<T>> for Ended {
    ghost from_gives = { λ _ e. e ≡ NoMemory };

    fn from(_e: AllocFailed<T>) -> Ended {
        Ended::Memory
    }
}

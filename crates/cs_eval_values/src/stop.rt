//! What ends an evaluation early.
ghost use Rattle.std.specs.Prelude.{◌≡◌};
ghost use Rattle.cs_eval_values.specs.declared.stop.Stop.TheVariants.{Memory as NoMemory};

use cs_base::Memory;
use std::alloc::{AllocError, AllocFailed};

/// Why an evaluation traps.
#[derive(Clone, Copy, Debug, PartialEq, Eq)]
pub enum Cause {
    /// An int leaves its range.
    Range,
    /// A divisor is 0.
    Divisor,
    /// A place isn't below the length.
    Place,
    /// There are more than 256 bytes or 64 items.
    Length,
    /// A value's encoding passes its limit.
    Size,
    /// A dep isn't there, or has no such int.
    Dep,
    /// A value is of a wrong kind, or a name stands for nothing. No check of an accepted contract
    /// comes to this.
    Misfit,
}

/// What ends an evaluation before its end.
#[derive(Clone, Copy, Debug, PartialEq, Eq)]
pub enum Stop {
    /// The check answers.
    Answer(bool),
    /// It traps, at the token with this offset.
    Trap(Cause, usize),
    /// There was not enough memory.
    Memory,
}

impl From<Memory> for Stop {
    ghost from_gives = { λ _ e. e ≡ NoMemory };

    fn from(_e: Memory) -> Stop {
        Stop::Memory
    }
}

impl From<AllocError> for Stop {
    ghost from_gives = { λ _ e. e ≡ NoMemory };

    fn from(_e: AllocError) -> Stop {
        Stop::Memory
    }
}

impl<T: Drop> From<AllocFailed<T>> for Stop {
    ghost from_gives = { λ _ e. e ≡ NoMemory };

    fn from(_e: AllocFailed<T>) -> Stop {
        Stop::Memory
    }
}

//! What ends a procedure before its end.
ghost use Rattle.std.specs.Prelude.{◌≡◌};
ghost use Rattle.cs_proc_parts.specs.Halting.{halt_of};
ghost use Rattle.cs_proc_parts.specs.declared.ending.Halt.TheVariants.{Memory as NoMemory};

use cs_base::Memory;
use cs_eval_values::{Cause, Stop};
use std::alloc::{AllocError, AllocFailed};

/// Why a procedure ends before its end.
#[derive(Clone, Copy, Debug, PartialEq, Eq)]
pub enum Ending {
    /// It traps, at the token with this offset.
    Trap(Cause, usize),
    /// A `make`, whose word has this offset, fills a slot for one object that is filled already.
    Filled(usize),
    /// A slot for one object isn't filled at the method's closing brace, which has this offset.
    Unfilled(usize),
    /// An object or an argument of a method is missing or doesn't fit.
    Missing,
}

/// What ends the run of a procedure before its end.
#[derive(Clone, Copy, Debug, PartialEq, Eq)]
pub enum Halt {
    /// It ends by what it means.
    End(Ending),
    /// There was not enough memory.
    Memory,
}

impl From<Stop> for Halt {
    ghost from_gives = { λ stop halt. halt ≡ halt_of stop };

    fn from(stop: Stop) -> Halt {
        match stop {
            Stop::Trap(cause, place) => Halt::End(Ending::Trap(cause, place)),
            Stop::Answer(_) => Halt::End(Ending::Trap(Cause::Misfit, 0)),
            Stop::Memory => Halt::Memory,
        }
    }
}

impl From<Memory> for Halt {
    ghost from_gives = { λ _ halt. halt ≡ NoMemory };

    fn from(_e: Memory) -> Halt {
        Halt::Memory
    }
}

impl From<AllocError> for Halt {
    ghost from_gives = { λ _ halt. halt ≡ NoMemory };

    fn from(_e: AllocError) -> Halt {
        Halt::Memory
    }
}

impl<T: Drop> From<AllocFailed<T>> for Halt {
    ghost from_gives = { λ _ halt. halt ≡ NoMemory };

    fn from(_e: AllocFailed<T>) -> Halt {
        Halt::Memory
    }
}

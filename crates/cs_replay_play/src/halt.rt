//! Why a replay stops before its end.
use cs_base::{Memory, WriteError};
use std::alloc::AllocError;

/// Why a replay stops before its end.
#[derive(Clone, Copy, Debug, PartialEq, Eq)]
pub enum Halt {
    /// By the line of this number there would have been too many events, or too many bytes sent.
    Limit(u64),
    /// What the line of this number injects is forged.
    Forged(u64),
    /// The sink failed.
    Failed,
    /// There was not enough memory.
    Memory,
}

impl From<Memory> for Halt {
    ghost use Rattle.std.specs.Prelude.{◌≡◌};
    ghost use Rattle.cs_replay_play.specs.declared.halt.Halt.TheVariants.{Memory as NoMemory};

    ghost from_gives = { λ _ e. e ≡ NoMemory };

    fn from(_: Memory) -> Self {
        Halt::Memory
    }
}

impl From<AllocError> for Halt {
    ghost use Rattle.std.specs.Prelude.{◌≡◌};
    ghost use Rattle.cs_replay_play.specs.declared.halt.Halt.TheVariants.{Memory as NoMemory};

    ghost from_gives = { λ _ e. e ≡ NoMemory };

    fn from(_: AllocError) -> Self {
        Halt::Memory
    }
}

impl From<WriteError> for Halt {
    ghost use Rattle.std.specs.Prelude.{◌≡◌};
    ghost use Rattle.cs_replay_play.specs.Ends.{halt_of_write};

    ghost from_gives = { λ error halt. halt ≡ halt_of_write error };

    fn from(error: WriteError) -> Self {
        match error {
            WriteError::Failed => Halt::Failed,
            WriteError::Memory => Halt::Memory,
        }
    }
}

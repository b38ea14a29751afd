//! How a replay ends.
ghost use Rattle.std.specs.Prelude.{◌≡◌};
ghost use Rattle.cs_replay.specs.Answers.{error_status};

use cs_base::Memory;

/// The numbers of a replay of which all events were played.
#[derive(Clone, Copy, Debug, PartialEq, Eq)]
pub struct Summary {
    /// How many transactions the history has.
    pub accepted: u64,
    /// On how many sessions an honest node decided abort.
    pub aborted: u64,
    /// How many events there were.
    pub events: u64,
    /// How many bytes honest nodes sent.
    pub sent: u64,
}

/// Why a replay stopped before its end.
#[derive(Clone, Copy, Debug, PartialEq, Eq)]
pub enum ReplayError {
    /// What the line of this number injects is forged.
    Forged(u64),
    /// By the line of this number there would have been too many events, or too many bytes sent.
    Limit(u64),
    /// The sink failed.
    WriteFault,
    /// There was not enough memory.
    Memory,
}

impl ReplayError {
    /// The status of a program that ends so.
    pub fn status(self) -> u8
        ensures { result ≡ error_status self }
    {
        match self {
            ReplayError::Forged(_) => 4,
            ReplayError::Limit(_) => 13,
            ReplayError::WriteFault => 6,
            ReplayError::Memory => 8,
        }
    }
}

impl From<Memory> for ReplayError {
    ghost use Rattle.cs_replay.specs.declared.outcome.ReplayError.TheVariants.{Memory as NoMemory};

    ghost from_gives = { λ _ e. e ≡ NoMemory };

    fn from(_: Memory) -> ReplayError {
        ReplayError::Memory
    }
}

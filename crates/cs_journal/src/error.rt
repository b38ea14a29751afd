//! Why a call of a journal is refused.
ghost use Rattle.std.specs.Prelude.{◌≡◌};
ghost use Rattle.cs_journal.specs.declared.error.JournalError.TheVariants.{Memory as NoMemory};

use cs_base::Memory;

/// Why a call of a journal is refused.
#[derive(Clone, Copy, Debug, PartialEq, Eq)]
pub enum JournalError {
    /// The file isn't a journal of this node.
    BadJournal,
    /// The disk failed.
    DiskFault,
    /// The journal has no room for the input.
    Full,
    /// There was not enough memory.
    Memory,
}

impl From<Memory> for JournalError {
    ghost from_gives = { λ _ e. e ≡ NoMemory };

    fn from(_: Memory) -> JournalError {
        JournalError::Memory
    }
}

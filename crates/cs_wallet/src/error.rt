//! Why a wallet's file gave nothing.
ghost use Rattle.std.specs.Prelude.{◌≡◌};
ghost use Rattle.cs_wallet.specs.declared.error.FileError.TheVariants.{Memory as NoMemory};

use cs_base::Memory;
use std::alloc::AllocFailed;

/// Why a wallet's file gave nothing. What is missing, of another type or unreadable is told before
/// what is out of its range.
#[derive(Clone, Copy, Debug, PartialEq, Eq)]
pub enum FileError {
    /// The bytes are no TOML.
    Toml,
    /// `seed` is missing, of another type, or unreadable.
    Seed,
    /// `used` is missing or of another type, or one of its tables is unreadable, or has a number that
    /// another one has.
    Used,
    /// `used` has too many tables, or a number below 0.
    LimitUsed,
    /// There was not enough memory.
    Memory,
}

impl From<Memory> for FileError {
    ghost from_gives = { λ _ e. e ≡ NoMemory };

    fn from(_: Memory) -> FileError {
        FileError::Memory
    }
}

impl<T: Drop> From<AllocFailed<T>> for FileError {
    ghost from_gives = { λ _ e. e ≡ NoMemory };

    fn from(_: AllocFailed<T>) -> FileError {
        FileError::Memory
    }
}

//! Why a call gives no transaction.
ghost use Rattle.std.specs.Prelude.{◌≡◌};
ghost use Rattle.cs_proc.specs.declared.error.ProcError.TheVariants.{Memory as NoMemory};

use cs_base::Memory;
use std::alloc::{AllocError, AllocFailed};

/// Why a call gives no transaction, in the order in which the causes come about.
#[derive(Clone, Copy, Debug, PartialEq, Eq)]
pub enum ProcError {
    /// The book lacks the contract, or the contract the method.
    NoMethod,
    /// An object or an argument is missing, doesn't fit, or is left over.
    BadArgs,
    /// A procedure traps, at the token with this offset.
    Trap(usize),
    /// The transaction is too large to be one.
    TooLarge,
    /// The check of the trace with this number says no, and none before it.
    CheckerNo(usize),
    /// There was not enough memory.
    Memory,
}

impl From<Memory> for ProcError {
    ghost from_gives = { λ _ e. e ≡ NoMemory };

    fn from(_e: Memory) -> ProcError {
        ProcError::Memory
    }
}

impl From<AllocError> for ProcError {
    ghost from_gives = { λ _ e. e ≡ NoMemory };

    fn from(_e: AllocError) -> ProcError {
        ProcError::Memory
    }
}

impl<T: Drop> From<AllocFailed<T>> for ProcError {
    ghost from_gives = { λ _ e. e ≡ NoMemory };

    fn from(_e: AllocFailed<T>) -> ProcError {
        ProcError::Memory
    }
}

//! Why a text or a line gave nothing.
ghost use Rattle.std.specs.Prelude.{◌≡◌};
ghost use Rattle.cs_text.specs.declared.error.LineError.TheVariants.{Memory as NoMemory, Bad};

use crate::cause::{Cause, Refusal};
use std::alloc::{AllocError, AllocFailed};

/// Why a text gave nothing.
#[derive(Clone, Copy, Debug, PartialEq, Eq)]
pub enum TextError {
    /// There was not enough memory.
    Memory,
    /// The first bad line.
    Line(Refusal),
}

/// Why a line gave nothing.
#[derive(Clone, Copy, Debug, PartialEq, Eq)]
pub enum LineError {
    /// There was not enough memory.
    Memory,
    /// It is bad.
    Bad(Cause),
}

impl From<Cause> for LineError {
    ghost from_gives = { λ cause e. e ≡ Bad cause };

    fn from(cause: Cause) -> LineError {
        LineError::Bad(cause)
    }
}

impl From<cs_base::Memory> for LineError {
    ghost from_gives = { λ _ e. e ≡ NoMemory };

    fn from(_: cs_base::Memory) -> LineError {
        LineError::Memory
    }
}

impl From<AllocError> for LineError {
    ghost from_gives = { λ _ e. e ≡ NoMemory };

    fn from(_: AllocError) -> LineError {
        LineError::Memory
    }
}

impl<T: Drop> From<AllocFailed<T>> for LineError {
    ghost from_gives = { λ _ e. e ≡ NoMemory };

    fn from(_: AllocFailed<T>) -> LineError {
        LineError::Memory
    }
}

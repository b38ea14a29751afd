//! Why bytes are no encoding.
ghost use Rattle.std.specs.Prelude.{◌≡◌};
ghost use Rattle.cs_tx_value.specs.declared.form.FormError.TheVariants.{BadForm, Memory as NoMemory};

use cs_base::{Memory, Short};
use std::alloc::{AllocError, AllocFailed};

#[derive(Clone, Copy, Debug, PartialEq, Eq)]
pub enum FormError {
    /// There are more bytes than any encoding has.
    TooLong,
    /// The bytes are no encoding.
    BadForm,
    /// There was not enough memory.
    Memory,
}

impl From<Short> for FormError {
    ghost from_gives = { λ _ e. e ≡ BadForm };

    fn from(_e: Short) -> FormError {
        FormError::BadForm
    }
}

impl From<Memory> for FormError {
    ghost from_gives = { λ _ e. e ≡ NoMemory };

    fn from(_e: Memory) -> FormError {
        FormError::Memory
    }
}

impl From<AllocError> for FormError {
    ghost from_gives = { λ _ e. e ≡ NoMemory };

    fn from(_e: AllocError) -> FormError {
        FormError::Memory
    }
}

impl<T: Drop> From<AllocFailed<T>> for FormError {
    ghost from_gives = { λ _ e. e ≡ NoMemory };

    fn from(_e: AllocFailed<T>) -> FormError {
        FormError::Memory
    }
}

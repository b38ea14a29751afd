//! Why a session is not well formed.
ghost use Rattle.std.specs.Prelude.{◌≡◌};
ghost use Rattle.cs_tx.specs.declared.malformed.Malformed.TheVariants.{Memory as NoMemory};

use cs_base::{Key, Memory};
use std::alloc::{AllocError, AllocFailed};

/// The first test that a session fails. A trace is named by its number.
#[derive(Clone, Copy, Debug, PartialEq, Eq)]
pub enum Malformed {
    /// The transaction has no input.
    NoInput,
    /// An input is an earlier input or a reference: the first such.
    TwiceUsed(Key),
    /// An input or output of the trace is not of its contract.
    Foreign(u16),
    /// A dep of the trace is not the number of an earlier one.
    Dep(u16),
    /// The dummies are not one for each concerned shard without an input, in rising order.
    Dummies,
    /// There was not enough memory.
    Memory,
}

impl From<Memory> for Malformed {
    ghost from_gives = { λ _ e. e ≡ NoMemory };

    fn from(_e: Memory) -> Malformed {
        Malformed::Memory
    }
}

impl From<AllocError> for Malformed {
    ghost from_gives = { λ _ e. e ≡ NoMemory };

    fn from(_e: AllocError) -> Malformed {
        Malformed::Memory
    }
}

impl<T: Drop> From<AllocFailed<T>> for Malformed {
    ghost from_gives = { λ _ e. e ≡ NoMemory };

    fn from(_e: AllocFailed<T>) -> Malformed {
        Malformed::Memory
    }
}

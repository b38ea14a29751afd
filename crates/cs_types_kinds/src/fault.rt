//! Why a contract isn't accepted.
use std::alloc::{AllocError, AllocFailed};

/// Why a contract isn't accepted.
#[derive(Clone, Copy, Debug, PartialEq, Eq)]
pub enum TypeError {
    /// Memory ran out.
    Memory,
    /// A rule on kinds is broken at this offset.
    Mistyped(usize),
    /// The name at this offset isn't in sight or isn't declared.
    Unbound(usize),
    /// The static cost of the first body that costs too much.
    Cost(u64),
}

impl From<AllocError> for TypeError {
    ghost use Rattle.std.specs.Prelude.{◌≡◌};
    ghost use Rattle.cs_types_kinds.specs.declared.fault.TypeError.TheVariants.{Memory};

    ghost from_gives = { λ _ e. e ≡ Memory };

    fn from(_error: AllocError) -> TypeError {
        TypeError::Memory
    }
}

impl<T: Drop> From<AllocFailed<T>> for TypeError {
    ghost use Rattle.std.specs.Prelude.{◌≡◌};
    ghost use Rattle.cs_types_kinds.specs.declared.fault.TypeError.TheVariants.{Memory};

    ghost from_gives = { λ _ e. e ≡ Memory };

    fn from(_error: AllocFailed<T>) -> TypeError {
        TypeError::Memory
    }
}

//! Why a text is no transaction.
ghost use Rattle.std.specs.Prelude.{◌≡◌};
ghost use Rattle.cs_transact.specs.Lines.{field_word};
ghost use Rattle.cs_transact.specs.declared.refusal.TextError.TheVariants.{Memory as NoMemory};

use cs_base::Memory;
use cs_tx_value::Digest;
use std::alloc::{AllocError, AllocFailed};

/// A field of a trace.
#[derive(Clone, Copy, Debug, PartialEq, Eq)]
pub enum TraceField {
    Contract,
    Method,
    Inputs,
    References,
    Outputs,
    Parameters,
    Returns,
    Deps,
}

/// The fields of a trace, in the order in which they are looked at.
pub const FIELDS: [TraceField; 8] = [
    TraceField::Contract,
    TraceField::Method,
    TraceField::Inputs,
    TraceField::References,
    TraceField::Outputs,
    TraceField::Parameters,
    TraceField::Returns,
    TraceField::Deps,
];

/// The first cause for which a text is no transaction. A trace is named by its number, from 0.
#[derive(Clone, Copy, Debug, PartialEq, Eq)]
pub enum Refusal {
    /// The bytes are no TOML.
    Toml,
    /// `traces` is missing, or no array of tables.
    Traces,
    /// There is no trace, or more than 16.
    Many,
    /// The field of this trace is missing, of another type, or unreadable.
    Field(usize, TraceField),
    /// What the field of this trace says is past its limit.
    Limit(usize, TraceField),
    /// The encoding has more than 8,192 bytes.
    Large,
    /// There is no input.
    NoInput,
    /// An input is an earlier input or a reference: the first such.
    Twice(Digest),
    /// An input or output of the trace is not of its contract.
    Foreign(u16),
    /// A dep of the trace is not the number of an earlier one.
    Dep(u16),
}

/// Why a text gave no transaction.
#[derive(Clone, Copy, Debug, PartialEq, Eq)]
pub enum TextError {
    /// The text is none.
    Refused(Refusal),
    /// There was not enough memory.
    Memory,
}

impl TraceField {
    /// The key under which the field stands.
    pub fn name(self) -> &'static str
        ensures { result.now ≡ field_word self }
    {
        match self {
            TraceField::Contract => "contract",
            TraceField::Method => "method",
            TraceField::Inputs => "inputs",
            TraceField::References => "references",
            TraceField::Outputs => "outputs",
            TraceField::Parameters => "parameters",
            TraceField::Returns => "returns",
            TraceField::Deps => "deps",
        }
    }
}

impl From<Memory> for TextError {
    ghost from_gives = { λ _ e. e ≡ NoMemory };

    fn from(_: Memory) -> TextError {
        TextError::Memory
    }
}

impl From<AllocError> for TextError {
    ghost from_gives = { λ _ e. e ≡ NoMemory };

    fn from(_: AllocError) -> TextError {
        TextError::Memory
    }
}

impl<T: Drop> From<AllocFailed<T>> for TextError {
    ghost from_gives = { λ _ e. e ≡ NoMemory };

    fn from(_: AllocFailed<T>) -> TextError {
        TextError::Memory
    }
}

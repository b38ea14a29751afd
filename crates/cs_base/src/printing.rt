//! Writing a whole text.
ghost use Rattle.std.specs.Prelude.{◌≡◌, OnOk, OnErr, IsErrOf};
ghost use Rattle.std.specs.Io.KnownBytes.{Appends};
ghost use Rattle.cs_base.specs.Outside.{HasCause};
ghost use Rattle.cs_base.specs.Answers.{AppendsFront};
ghost use Rattle.cs_base.specs.declared.printing.WriteError.TheVariants.{Memory};

use crate::outside::{Put, Sink};
use std::alloc::AllocError;

/// Why not all of a text was written.
#[derive(Clone, Copy, Debug, PartialEq, Eq)]
pub enum WriteError {
    Failed,
    Memory,
}

impl From<AllocError> for WriteError {
    ghost from_gives = { λ _ e. e ≡ Memory };

    fn from(_: AllocError) -> Self {
        WriteError::Memory
    }
}

/// Writes all of a text. It stops at the first call of the sink that isn't answered by taking
/// bytes.
pub fn print<K: Sink>(output: &mut K, text: &[u8]) -> Result<(), WriteError>
    ensures done { OnOk result (Appends (K.written output.old) (K.written output.new) text.now) }
    ensures part { OnErr result
        (AppendsFront (K.written output.old) (K.written output.new) text.now) }
    ensures cause { HasCause (K.faults output.old) (K.faults output.new)
        (IsErrOf result WriteError.Failed) }
{
    let mut rest = text;
    while !rest.is_empty() {
        match output.write(rest) {
            Put::Took(count) => {
                let (_, after) = rest.split_at(count);
                rest = after;
            }
            Put::Failed => return Err(WriteError::Failed),
            Put::Memory => return Err(WriteError::Memory),
        }
    }
    Ok(())
}

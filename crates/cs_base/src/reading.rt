//! Reading a source to its end.
ghost use Rattle.std.specs.Prelude.{◌≡◌, ◌+◌, ◌<◌, ◌^◌, IfOk, IsErrOf};
ghost use Rattle.cs_base.specs.Outside.{HasCause};
ghost use Rattle.cs_base.specs.Answers.{IsSourceText};
ghost use Rattle.cs_base.specs.declared.reading.ReadError.TheVariants.{Memory};

use crate::outside::{Got, Source};
use std::alloc::{AllocError, Global};

/// Why a source was not read to its end.
#[derive(Clone, Copy, Debug, PartialEq, Eq)]
pub enum ReadError {
    Failed,
    Memory,
}

impl From<AllocError> for ReadError {
    ghost from_gives = { λ _ e. e ≡ Memory };

    fn from(_: AllocError) -> Self {
        ReadError::Memory
    }
}

// How many bytes are asked for at once.
const PIECE: usize = 4096;

/// All that is left of a source; or, where that is longer than the limit, one byte more than the
/// limit.
pub fn read_text<S: Source>(
    alloc: Global,
    limit: usize,
    input: &mut S,
) -> Result<Vec<u8>, ReadError>
    requires { limit < 2 ^ 32 }
    ensures text { IfOk result (λ text.
        IsSourceText limit (S.left input.old) (S.left input.new) text.items) }
    ensures cause { HasCause (S.faults input.old) (S.faults input.new)
        (IsErrOf result ReadError.Failed) }
{
    let mut text = Vec::new(alloc);
    let mut piece = [0; PIECE];
    while text.len() <= limit {
        let room = PIECE.min(limit + 1 - text.len());
        match input.read(&mut piece[..room]) {
            Got::Bytes(count) => text.extend_from_slice(&piece[..count])?,
            Got::End => break,
            Got::Failed => return Err(ReadError::Failed),
        }
    }
    Ok(text)
}

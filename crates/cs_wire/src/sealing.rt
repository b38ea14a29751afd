//! Sealing datagrams.
ghost use Rattle.std.specs.Prelude.{◌≡◌, ◌↔◌, None, OnOk, OnErr, IsErrOf};
ghost use Rattle.cs_wire_message.specs.Message.{MessageFits};
ghost use Rattle.cs_wire.specs.Keys.{row_of};
ghost use Rattle.cs_wire.specs.Opens.{Seals};
ghost use Rattle.cs_wire.specs.declared.sealing.SealError.TheVariants.{NoKey};

use crate::keys::Keys;
use crate::raw::seal_with;
use cs_base::{Memory, NodeId};
use cs_wire_message::{Message, body_of};
use std::alloc::{AllocError, Global};

/// Why a message isn't sealed.
#[derive(Clone, Copy, Debug, PartialEq, Eq)]
pub enum SealError {
    /// There is no key for the receiver.
    NoKey,
    /// There was not enough memory.
    Memory,
}

impl From<Memory> for SealError {
    ghost use Rattle.cs_wire.specs.declared.sealing.SealError.TheVariants.{Memory as NoMemory};

    ghost from_gives = { λ _ e. e ≡ NoMemory };

    fn from(_e: Memory) -> SealError {
        SealError::Memory
    }
}

impl From<AllocError> for SealError {
    ghost use Rattle.cs_wire.specs.declared.sealing.SealError.TheVariants.{Memory as NoMemory};

    ghost from_gives = { λ _ e. e ≡ NoMemory };

    fn from(_e: AllocError) -> SealError {
        SealError::Memory
    }
}

/// Appends the datagram that says the message to a peer. Where it is refused, nothing is appended.
pub fn seal(
    alloc: Global,
    keys: &Keys,
    to: NodeId,
    message: &Message,
    out: &mut Vec<u8>,
) -> Result<(), SealError>
    requires { MessageFits keys.now.version message.now }
    ensures ok { OnOk result (Seals keys.now to message.now out.old.items out.new.items) }
    ensures no_key { IsErrOf result NoKey ↔ (row_of to keys.now ≡ None) }
    ensures err { OnErr result (out.new.items ≡ out.old.items) }
{
    if keys.row(to).is_none() {
        return Err(SealError::NoKey);
    }
    let body = body_of(alloc, message, keys.version)?;
    seal_with(alloc, keys, to, message.kind(), &body, out)
}

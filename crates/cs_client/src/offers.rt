//! Sealing what a client says.
ghost use Rattle.std.specs.Prelude.{◌≡◌, ◌≤◌, ◌++◌, length, OnOk};
ghost use Rattle.cs_base.specs.declared.limits.TheConstants.{MOST_BODY};
ghost use Rattle.cs_wire.specs.Keys.{row_of};
ghost use Rattle.cs_wire_message.specs.Message.{MessageFits};
ghost use Rattle.cs_client.specs.Sayings.{say_to_each, out_by, outs_with, outs_of_sayings};

use cs_base::{Memory, NodeId, Sequence};
use cs_wire::{Keys, Out, SealError, seal_with};
use cs_wire_message::{Message, body_of};
use std::alloc::Global;

// Seals a body for one. A peer without a key gets nothing.
fn add_out(
    alloc: Global,
    keys: &Keys,
    to: NodeId,
    kind: u8,
    body: &[u8],
    outs: &mut Sequence<Out>,
) -> Result<(), Memory>
    requires { length body.now ≤ MOST_BODY }
    ensures { OnOk result
        (outs.new ≡ outs.old ++ out_by keys.now.version keys.now.me to kind body.now (row_of to keys.now)) }
{
    let mut bytes = Vec::new(alloc);
    match seal_with(alloc, keys, to, kind, body, &mut bytes) {
        Ok(()) => {
            outs.push(Out {
                to,
                bytes: Sequence::from_vec(bytes),
            })?;
            Ok(())
        }
        Err(SealError::NoKey) => Ok(()),
        Err(SealError::Memory) => Err(Memory),
    }
}

/// Says a body of this kind to each of these.
pub fn say_body(
    alloc: Global,
    keys: &Keys,
    to: &[NodeId],
    kind: u8,
    body: &[u8],
    outs: &mut Sequence<Out>,
) -> Result<(), Memory>
    requires { length body.now ≤ MOST_BODY }
    ensures { OnOk result
        (outs.new ≡ outs.old ++ outs_with keys.now kind body.now to.now) }
{
    for i in 0..to.len() {
        add_out(alloc, keys, to[i], kind, body, outs)?;
    }
    Ok(())
}

/// Says a message to each of these: its body is written once, and sealed for each.
pub fn say(
    alloc: Global,
    keys: &Keys,
    to: &[NodeId],
    message: &Message,
    outs: &mut Sequence<Out>,
) -> Result<(), Memory>
    requires { MessageFits keys.now.version message.now }
    ensures { OnOk result
        (outs.new ≡ outs.old ++ outs_of_sayings keys.now (say_to_each to.now message.now)) }
{
    let body = body_of(alloc, message, keys.version())?;
    say_body(alloc, keys, to, message.kind(), &body, outs)
}

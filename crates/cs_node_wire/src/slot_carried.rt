//! The order among 3f+1 members, whose messages are carried by those of their kinds.
ghost use Rattle.std.specs.Prelude.{◌≡◌, IfOk};
ghost use Rattle.cs_node_wire.specs.SlotCarried.{slot_carrier, change_written, change_read, kind_written, blank};
ghost use Rattle.cs_node_wire.specs.laws.SlotCarried.{slot_carries};

use crate::carried::Carried;
use crate::proposals::{propose_entry, read_entry};
use cs_base::{Memory, Sequence, Version};
use cs_log::SlotOrder;
use cs_order_rules::{Change as OrderChange, OrderMessage};
use cs_wire_message::{Change, Message};
use std::alloc::Global;

/// What is written where nothing can be.
fn nothing() -> Message
    ensures { result ≡ blank }
{
    Message::Want { slot: 0 }
}

fn write_change(alloc: Global, change: &OrderChange) -> Result<Change, Memory>
    ensures { IfOk result (λ written. written ≡ change_written change.now) }
{
    let echoed = Vec::from_slice(alloc, change.echoed.as_slice())?;
    Ok(Change {
        prepared: change.prepared,
        echoed: Sequence::from_vec(echoed),
    })
}

fn read_change(change: Change) -> OrderChange
    ensures { result ≡ change_read change }
{
    let Change { prepared, echoed } = change;
    OrderChange { prepared, echoed }
}

/// The message of the same kind.
fn write_kind(alloc: Global, message: &OrderMessage, version: Version) -> Result<Message, Memory>
    ensures { IfOk result (λ written. written ≡ kind_written version message.now) }
{
    match message {
        OrderMessage::Propose { slot, view, entry } => match read_entry(alloc, entry, version)? {
            Some(entry) => Ok(Message::Propose {
                slot: *slot,
                view: *view,
                entry,
            }),
            None => Ok(nothing()),
        },
        OrderMessage::Echo { slot, view, digest } => Ok(Message::Echo {
            slot: *slot,
            view: *view,
            digest: *digest,
        }),
        OrderMessage::Confirm { slot, view, digest } => Ok(Message::Confirm {
            slot: *slot,
            view: *view,
            digest: *digest,
        }),
        OrderMessage::Change { slot, view, change } => {
            let change = write_change(alloc, change)?;
            Ok(Message::Change {
                slot: *slot,
                view: *view,
                change,
            })
        }
        OrderMessage::Done { slot, entry } => match read_entry(alloc, entry, version)? {
            Some(entry) => Ok(Message::Done { slot: *slot, entry }),
            None => Ok(nothing()),
        },
    }
}

impl Carried for SlotOrder {
    ghost carrier = { slot_carrier };

    ghost carries = { slot_carries };

    fn write(alloc: Global, message: &OrderMessage, version: Version) -> Result<Message, Memory> {
        let written = write_kind(alloc, message, version)?;
        if written.fits(version) {
            return Ok(written);
        }
        Ok(nothing())
    }

    fn read(
        alloc: Global,
        message: Message,
        version: Version,
    ) -> Result<Option<OrderMessage>, Memory> {
        match message {
            Message::Propose { slot, view, entry } => {
                let entry = propose_entry(alloc, &entry, version)?;
                Ok(Some(OrderMessage::Propose { slot, view, entry }))
            }
            Message::Echo { slot, view, digest } => {
                Ok(Some(OrderMessage::Echo { slot, view, digest }))
            }
            Message::Confirm { slot, view, digest } => {
                Ok(Some(OrderMessage::Confirm { slot, view, digest }))
            }
            Message::Change { slot, view, change } => {
                let change = read_change(change);
                Ok(Some(OrderMessage::Change { slot, view, change }))
            }
            Message::Done { slot, entry } => {
                let entry = propose_entry(alloc, &entry, version)?;
                Ok(Some(OrderMessage::Done { slot, entry }))
            }
            _ => Ok(None),
        }
    }
}

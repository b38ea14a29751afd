//! What a message tells of itself.
ghost use Rattle.std.specs.Prelude.{◌≡◌};
ghost use Rattle.cs_order_rules.specs.Facts.{slot_of_message};

use cs_order_rules::OrderMessage;

/// The slot of which a message speaks.
pub fn slot_of(message: &OrderMessage) -> u64
    ensures { result ≡ slot_of_message message.now }
{
    match message {
        OrderMessage::Propose { slot, .. } => *slot,
        OrderMessage::Echo { slot, .. } => *slot,
        OrderMessage::Confirm { slot, .. } => *slot,
        OrderMessage::Change { slot, .. } => *slot,
        OrderMessage::Done { slot, .. } => *slot,
    }
}

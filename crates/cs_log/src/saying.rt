//! What a member hands out.
ghost use Rattle.std.specs.Prelude.{◌≡◌, ◌++◌, ◌∷◌, [], IfOk, OnOk, OnErr, Some, option_copied, Option};
ghost use Rattle.cs_order_rules.specs.Rules.{to_all, sent_again};
ghost use Rattle.cs_order_rules.specs.declared.message.OrderMessage.TheVariants as message;

use cs_base::{Memory, Sequence};
use cs_order::{Outgoing, Proposed};
use cs_order_rules::{Change, OrderMessage};
use std::alloc::{AllocError, Global};

/// Hands a message out for all others.
pub fn say(out: &mut Vec<Outgoing<OrderMessage>>, message: OrderMessage) -> Result<(), Memory>
    ensures said { OnOk result (out.new.items ≡ out.old.items ++ to_all message) }
    ensures same { OnErr result (out.new.items ≡ out.old.items) }
{
    hand_out(out, None, message)
}

/// Hands a message out for a member, or at `None` for all others.
pub fn hand_out(
    out: &mut Vec<Outgoing<OrderMessage>>,
    to: Option<u16>,
    message: OrderMessage,
) -> Result<(), Memory>
    ensures said { OnOk result (
        out.new.items ≡ out.old.items ++ record { to = to; message = message } ∷ []) }
    ensures same { OnErr result (out.new.items ≡ out.old.items) }
{
    if let Err(refused) = out.push(Outgoing { to, message }) {
        return Err(AllocError::from(refused).into());
    }
    Ok(())
}

/// Says the own proposal again.
pub fn propose_again(
    alloc: Global,
    out: &mut Vec<Outgoing<OrderMessage>>,
    slot: u64,
    view: u16,
    own: Option<&Proposed>,
) -> Result<(), Memory>
    ensures said { OnOk result (out.new.items
        ≡ out.old.items ++ sent_again (message.Propose slot view) (option_copied own.entry)) }
    ensures same { OnErr result (out.new.items ≡ out.old.items) }
{
    let Some(entry) = own else {
        return Ok(());
    };
    let entry = entry.copy(alloc)?;
    say(out, OrderMessage::Propose { slot, view, entry })
}

/// Says the own echo again.
pub fn echo_again(
    out: &mut Vec<Outgoing<OrderMessage>>,
    slot: u64,
    view: u16,
    own: Option<[u8; 32]>,
) -> Result<(), Memory>
    ensures said { OnOk result (out.new.items
        ≡ out.old.items ++ sent_again (message.Echo slot view) own) }
    ensures same { OnErr result (out.new.items ≡ out.old.items) }
{
    let Some(digest) = own else {
        return Ok(());
    };
    say(out, OrderMessage::Echo { slot, view, digest })
}

/// Says the own confirm again.
pub fn confirm_again(
    out: &mut Vec<Outgoing<OrderMessage>>,
    slot: u64,
    view: u16,
    own: Option<[u8; 32]>,
) -> Result<(), Memory>
    ensures said { OnOk result (out.new.items
        ≡ out.old.items ++ sent_again (message.Confirm slot view) own) }
    ensures same { OnErr result (out.new.items ≡ out.old.items) }
{
    let Some(digest) = own else {
        return Ok(());
    };
    say(out, OrderMessage::Confirm { slot, view, digest })
}

/// Says the own change again.
pub fn change_again(
    alloc: Global,
    out: &mut Vec<Outgoing<OrderMessage>>,
    slot: u64,
    view: u16,
    own: Option<&Change>,
) -> Result<(), Memory>
    ensures said { OnOk result (out.new.items
        ≡ out.old.items ++ sent_again (message.Change slot view) (option_copied own.entry)) }
    ensures same { OnErr result (out.new.items ≡ out.old.items) }
{
    let Some(change) = own else {
        return Ok(());
    };
    let change = copy_change(alloc, change)?;
    say(out, OrderMessage::Change { slot, view, change })
}

/// The same change again.
fn copy_change(alloc: Global, change: &Change) -> Result<Change, Memory>
    ensures { IfOk result (λ copied. copied ≡ change.now) }
{
    let echoed = Vec::from_slice(alloc, change.echoed.as_slice())?;
    Ok(Change {
        prepared: change.prepared,
        echoed: Sequence::from_vec(echoed),
    })
}

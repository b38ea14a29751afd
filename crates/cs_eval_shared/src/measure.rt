//! How much room lists take.
ghost use Rattle.cs_base.specs.Fields.{each};
ghost use Rattle.cs_tx_value.specs.declared.value.Value.TheVariants as value;
ghost use Rattle.cs_tx_value.specs.Encoding.{value_encoding};
ghost use Rattle.cs_tx_value.specs.Reading.{LeavesRoom};

use crate::shared::Shared;

/// What is left of so much room behind the encodings of items.
fn items_room(items: &[Shared<'_>], room: usize) -> Option<usize>
    ensures { LeavesRoom (each value_encoding items.now) room result }
{
    let mut left = room;
    for item in items {
        left = left.checked_sub(item.encoded())?;
    }
    Some(left)
}

/// What is left of so much room behind the encoding of a list. No item is measured.
#[tactic(auto, using(cs_tx_value::specs::laws::Layers::writes))]
pub fn list_room(items: &[Shared<'_>], room: usize) -> Option<usize>
    ensures { LeavesRoom (value_encoding (value.List items.now)) room result }
{
    let room = room.checked_sub(2)?;
    items_room(items, room)
}

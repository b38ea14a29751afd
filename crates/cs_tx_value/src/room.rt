//! How much room a value takes.
ghost use Rattle.cs_base.specs.Fields.{each, counted};
ghost use Rattle.cs_tx_value.specs.Encoding.{value_encoding};
ghost use Rattle.cs_tx_value.specs.Reading.{LeavesRoom};

use crate::value::Value;

#[cycle(room)]
fn values_room(values: &[Value], room: usize) -> Option<usize>
    ensures { LeavesRoom (each value_encoding values.now) room result }
{
    let mut left = room;
    for value in values {
        left = value_room(value, left)?;
    }
    Some(left)
}

/// What is left of so much room behind the encoding of a value.
#[cycle(room)]
#[tactic(auto, using(crate::specs::laws::Layers::writes))]
pub fn value_room(value: &Value, room: usize) -> Option<usize>
    ensures { LeavesRoom (value_encoding value.now) room result }
{
    match value {
        Value::Int(_) => room.checked_sub(9),
        Value::Bool(_) => room.checked_sub(2),
        Value::Bytes(text) => {
            let room = room.checked_sub(3)?;
            room.checked_sub(text.len())
        }
        Value::List(items) => {
            let room = room.checked_sub(2)?;
            values_room(items.as_slice(), room)
        }
    }
}

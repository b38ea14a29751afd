//! What the lines say that stand in dumps alone.
ghost use Rattle.std.specs.Prelude.{◌≡◌};
ghost use Rattle.cs_base.specs.Lines.{views};
ghost use Rattle.cs_text.specs.Reading.{GivesStep};
ghost use Rattle.cs_audit_dump.specs.Said.{slots_said, log_said, encoded_leaf, leaf_of_hex, leaf_said};

use cs_base::read_bytes;
use cs_text::{Cause, LineError, only_field, read_field_number};
use cs_tx::{FormError, Leaf, Versioned};
use std::alloc::Global;

// How many slots the log has of the shard whose turn it is.
pub(crate) fn read_log_line(turn: usize, fields: &[&[u8]]) -> Result<u64, Cause>
    ensures { result ≡ log_said turn (views fields.now) }
{
    match fields {
        [shard, slots] => read_slots(turn, shard, slots),
        _ => Err(Cause::Count),
    }
}

fn read_slots(turn: usize, shard: &[u8], slots: &[u8]) -> Result<u64, Cause>
    ensures { result ≡ slots_said turn shard.now slots.now }
{
    if read_field_number(shard)? != turn as u64 {
        return Err(Cause::Node);
    }
    read_field_number(slots)
}

pub(crate) fn read_leaf_line(alloc: Global, fields: &[&[u8]]) -> Result<Leaf, LineError>
    ensures { GivesStep result (leaf_said (views fields.now)) }
{
    let field = only_field(fields)?;
    read_leaf(alloc, field)
}

fn read_leaf(alloc: Global, field: &[u8]) -> Result<Leaf, LineError>
    ensures { GivesStep result (leaf_of_hex field.now) }
{
    let Some(bytes) = read_bytes(alloc, field)? else {
        return Err(LineError::Bad(Cause::Hex));
    };
    decode_leaf(alloc, bytes.as_slice())
}

// The leaf of which these bytes are the encoding.
fn decode_leaf(alloc: Global, bytes: &[u8]) -> Result<Leaf, LineError>
    ensures { GivesStep result (encoded_leaf bytes.now) }
{
    match Leaf::decode(alloc, bytes, 1) {
        Ok(leaf) => Ok(leaf),
        Err(FormError::Memory) => Err(LineError::Memory),
        Err(FormError::BadForm) => Err(LineError::Bad(Cause::Object)),
        Err(FormError::TooLong) => Err(LineError::Bad(Cause::Object)),
    }
}

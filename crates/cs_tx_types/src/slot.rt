//! The slots of a shard's order.
ghost use Rattle.std.specs.Prelude.{◌≡◌};
ghost use Rattle.cs_tx_value.specs.Reading.{ReadsValue, Passes};
ghost use Rattle.cs_tx_types.specs.Log.{slot_at};

use cs_base::{Cursor, LAST_SLOT};
use cs_tx_value::FormError;

/// The slot at the cursor.
#[tactic(auto, unfolding(cs_base::specs::Fields::tested_at))]
pub fn read_slot(cursor: &mut Cursor<'_>) -> Result<u64, FormError>
    ensures { ReadsValue result cursor.new (slot_at cursor.old) }
{
    let slot = cursor.u64()?;
    if slot > LAST_SLOT {
        return Err(FormError::BadForm);
    }
    Ok(slot)
}

/// Passes over a slot.
#[tactic(auto, unfolding(cs_base::specs::Fields::tested_at))]
pub fn skip_slot(cursor: &mut Cursor<'_>) -> Result<(), FormError>
    ensures { Passes result cursor.new (slot_at cursor.old) }
{
    if cursor.u64()? > LAST_SLOT {
        return Err(FormError::BadForm);
    }
    Ok(())
}

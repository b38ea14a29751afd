//! The views of a slot.
ghost use Rattle.std.specs.Prelude.{◌≡◌};
ghost use Rattle.cs_tx_value.specs.Reading.{ReadsValue, Passes};
ghost use Rattle.cs_wire_message.specs.Reading.{view_number_at, flag_at};

use cs_base::{Cursor, LAST_VIEW};
use cs_tx_value::FormError;

/// The view at the cursor.
#[tactic(auto, unfolding(cs_base::specs::Fields::tested_at))]
pub fn read_view(cursor: &mut Cursor<'_>) -> Result<u16, FormError>
    ensures { ReadsValue result cursor.new (view_number_at cursor.old) }
{
    let view = cursor.u16()?;
    if view > LAST_VIEW {
        return Err(FormError::BadForm);
    }
    Ok(view)
}

/// Passes over a view.
#[tactic(auto, unfolding(cs_base::specs::Fields::tested_at))]
pub fn skip_view(cursor: &mut Cursor<'_>) -> Result<(), FormError>
    ensures { Passes result cursor.new (view_number_at cursor.old) }
{
    if cursor.u16()? > LAST_VIEW {
        return Err(FormError::BadForm);
    }
    Ok(())
}

/// The flag at the cursor.
#[tactic(auto, unfolding(crate::specs::Reading::flag_at, cs_base::specs::Fields::tested_at))]
pub fn read_flag(cursor: &mut Cursor<'_>) -> Result<bool, FormError>
    ensures { ReadsValue result cursor.new (flag_at cursor.old) }
{
    let flag = cursor.u8()?;
    if flag > 1 {
        return Err(FormError::BadForm);
    }
    Ok(flag >= 1)
}

/// Passes over a flag.
#[tactic(auto, using(cs_base::proofs::Many::behind_map), unfolding(crate::specs::Reading::flag_at, cs_base::specs::Fields::tested_at))]
pub fn skip_flag(cursor: &mut Cursor<'_>) -> Result<(), FormError>
    ensures { Passes result cursor.new (flag_at cursor.old) }
{
    if cursor.u8()? > 1 {
        return Err(FormError::BadForm);
    }
    Ok(())
}

//! Passing over values at a cursor, without making them.
ghost use Rattle.std.specs.Prelude.{◌≡◌};
ghost use Rattle.cs_base.specs.Fields.{many_at, counted_at};
ghost use Rattle.cs_tx_value.specs.Reading.{Passes, int_at, bool_at, text_at, value_at};

use crate::form::FormError;
use cs_base::Cursor;

#[tactic(auto, using(cs_base::proofs::Many::behind_map), unfolding(crate::specs::Reading::int_at))]
fn skip_int(cursor: &mut Cursor<'_>) -> Result<(), FormError>
    ensures { Passes result cursor.new (int_at cursor.old) }
{
    cursor.u64()?;
    Ok(())
}

#[tactic(auto, using(cs_base::proofs::Many::behind_map), unfolding(crate::specs::Reading::bool_at, cs_base::specs::Fields::tested_at))]
fn skip_bool(cursor: &mut Cursor<'_>) -> Result<(), FormError>
    ensures { Passes result cursor.new (bool_at cursor.old) }
{
    if cursor.u8()? > 1 {
        return Err(FormError::BadForm);
    }
    Ok(())
}

#[tactic(auto, unfolding(cs_base::specs::Fields::upto_at))]
fn skip_text(cursor: &mut Cursor<'_>) -> Result<(), FormError>
    ensures { Passes result cursor.new (text_at cursor.old) }
{
    let len = cursor.u16()?;
    if len > 256 {
        return Err(FormError::BadForm);
    }
    cursor.take(len as usize)?;
    Ok(())
}

#[cycle(skip)]
fn skip_values(cursor: &mut Cursor<'_>, count: u8, depth: u8) -> Result<(), FormError>
    ensures { Passes result cursor.new (many_at (value_at depth) count cursor.old) }
{
    for _ in 0..count {
        skip_value(cursor, depth)?;
    }
    Ok(())
}

#[cycle(skip)]
#[tactic(auto, unfolding(cs_base::specs::Fields::upto_at))]
fn skip_items(cursor: &mut Cursor<'_>, depth: u8) -> Result<(), FormError>
    ensures { Passes result cursor.new (counted_at 64 (value_at depth) cursor.old) }
{
    let count = cursor.u8()?;
    if count > 64 {
        return Err(FormError::BadForm);
    }
    skip_values(cursor, count, depth)
}

/// Passes over a value in which lists nest at most so deep.
#[cycle(skip)]
#[tactic(auto, using(cs_base::proofs::Many::behind_map), unfolding(crate::specs::Reading::value_at))]
pub fn skip_value(cursor: &mut Cursor<'_>, depth: u8) -> Result<(), FormError>
    ensures { Passes result cursor.new (value_at depth cursor.old) }
{
    match cursor.u8()? {
        0 => skip_int(cursor),
        1 => skip_bool(cursor),
        2 => skip_text(cursor),
        3 if depth > 0 => skip_items(cursor, depth - 1),
        _ => Err(FormError::BadForm),
    }
}

//! Reading values at a cursor.
ghost use Rattle.std.specs.Prelude.{◌≡◌};
ghost use Rattle.cs_base.specs.Fields.{many_at, counted_at};
ghost use Rattle.cs_tx_value.specs.Reading.{ReadsValue, int_at, bool_at, text_at, value_at};

use crate::form::FormError;
use crate::value::Value;
use cs_base::{Cursor, Sequence};
use std::alloc::Global;

#[tactic(auto, unfolding(crate::specs::Reading::int_at))]
fn int_of(cursor: &mut Cursor<'_>) -> Result<i64, FormError>
    ensures { ReadsValue result cursor.new (int_at cursor.old) }
{
    Ok(cursor.u64()?.cast_signed())
}

#[tactic(auto, unfolding(crate::specs::Reading::bool_at, cs_base::specs::Fields::tested_at))]
fn bool_of(cursor: &mut Cursor<'_>) -> Result<bool, FormError>
    ensures { ReadsValue result cursor.new (bool_at cursor.old) }
{
    let flag = cursor.u8()?;
    if flag > 1 {
        return Err(FormError::BadForm);
    }
    Ok(flag >= 1)
}

#[tactic(auto, unfolding(cs_base::specs::Fields::upto_at))]
fn text_of(alloc: Global, cursor: &mut Cursor<'_>) -> Result<Sequence<u8>, FormError>
    ensures { ReadsValue result cursor.new (text_at cursor.old) }
{
    let len = cursor.u16()?;
    if len > 256 {
        return Err(FormError::BadForm);
    }
    let text = cursor.take(len as usize)?;
    Ok(Sequence::from_vec(Vec::from_slice(alloc, text)?))
}

/// So many values, in which lists nest at most so deep.
#[cycle(value)]
fn values_of(
    alloc: Global,
    cursor: &mut Cursor<'_>,
    count: u8,
    depth: u8,
) -> Result<Sequence<Value>, FormError>
    ensures { ReadsValue result cursor.new (many_at (value_at depth) count cursor.old) }
{
    let mut values = Sequence::new(alloc);
    for _ in 0..count {
        let value = value_of(alloc, cursor, depth)?;
        values.push(value)?;
    }
    Ok(values)
}

/// A count and so many values.
#[cycle(value)]
#[tactic(auto, unfolding(cs_base::specs::Fields::upto_at))]
fn items_of(alloc: Global, cursor: &mut Cursor<'_>, depth: u8) -> Result<Sequence<Value>, FormError>
    ensures { ReadsValue result cursor.new (counted_at 64 (value_at depth) cursor.old) }
{
    let count = cursor.u8()?;
    if count > 64 {
        return Err(FormError::BadForm);
    }
    values_of(alloc, cursor, count, depth)
}

/// A value in which lists nest at most so deep.
#[cycle(value)]
#[tactic(auto, unfolding(crate::specs::Reading::value_at))]
pub fn value_of(alloc: Global, cursor: &mut Cursor<'_>, depth: u8) -> Result<Value, FormError>
    ensures { ReadsValue result cursor.new (value_at depth cursor.old) }
{
    match cursor.u8()? {
        0 => Ok(Value::Int(int_of(cursor)?)),
        1 => Ok(Value::Bool(bool_of(cursor)?)),
        2 => Ok(Value::Bytes(text_of(alloc, cursor)?)),
        3 if depth > 0 => Ok(Value::List(items_of(alloc, cursor, depth - 1)?)),
        _ => Err(FormError::BadForm),
    }
}

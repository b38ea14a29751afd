//! Lists of things that have an encoding, behind a count in one byte.
ghost use Rattle.std.specs.Prelude.{◌≡◌, ◌≤◌, ◌<◌, ◌++◌, ◌↔◌, length, IsTrue, IfOk, OnOk, OnErr};
ghost use Rattle.std.specs.List.{AllByRecursion};
ghost use Rattle.cs_base.specs.Fields.{each, counted, many_at, counted_at, some_at};
ghost use Rattle.cs_tx_value.specs.Reading.{ReadsValue, Passes, Begins, LeavesRoom};

use crate::encoded::Encoded;
use crate::form::FormError;
use cs_base::{Cursor, Memory, Sequence, Writer};
use std::alloc::Global;

/// So many items.
pub fn read_many<T: Encoded>(
    alloc: Global,
    cursor: &mut Cursor<'_>,
    count: u16,
) -> Result<Sequence<T>, FormError>
    ensures { ReadsValue result cursor.new (many_at T.found_at count cursor.old) }
{
    let mut items = Sequence::new(alloc);
    for _ in 0..count {
        let item = T::read(alloc, cursor)?;
        items.push(item)?;
    }
    Ok(items)
}

/// A count of at most so many, and the items.
#[tactic(auto, unfolding(cs_base::specs::Fields::upto_at))]
pub fn read_counted<T: Encoded>(
    alloc: Global,
    cursor: &mut Cursor<'_>,
    most: u8,
) -> Result<Sequence<T>, FormError>
    ensures { ReadsValue result cursor.new (counted_at most T.found_at cursor.old) }
{
    let count = cursor.u8()?;
    if count > most {
        return Err(FormError::BadForm);
    }
    read_many(alloc, cursor, u16::from(count))
}

/// Passes over so many items.
pub fn skip_many<T: Encoded>(cursor: &mut Cursor<'_>, count: u16) -> Result<(), FormError>
    ensures { Passes result cursor.new (many_at T.found_at count cursor.old) }
{
    for _ in 0..count {
        T::skip(cursor)?;
    }
    Ok(())
}

/// Passes over a count of at most so many, and the items.
#[tactic(auto, unfolding(cs_base::specs::Fields::upto_at))]
pub fn skip_counted<T: Encoded>(cursor: &mut Cursor<'_>, most: u8) -> Result<(), FormError>
    ensures { Passes result cursor.new (counted_at most T.found_at cursor.old) }
{
    let count = cursor.u8()?;
    if count > most {
        return Err(FormError::BadForm);
    }
    skip_many::<T>(cursor, u16::from(count))
}

/// A count of one to so many, and the items.
#[tactic(auto, unfolding(cs_base::specs::Fields::some_at))]
pub fn read_some<T: Encoded>(
    alloc: Global,
    cursor: &mut Cursor<'_>,
    most: u8,
) -> Result<Sequence<T>, FormError>
    ensures { ReadsValue result cursor.new (some_at most T.found_at cursor.old) }
{
    let count = cursor.u8()?;
    if count < 1 {
        return Err(FormError::BadForm);
    }
    if count > most {
        return Err(FormError::BadForm);
    }
    read_many(alloc, cursor, u16::from(count))
}

/// Passes over a count of one to so many, and the items.
#[tactic(auto, unfolding(cs_base::specs::Fields::some_at))]
pub fn skip_some<T: Encoded>(cursor: &mut Cursor<'_>, most: u8) -> Result<(), FormError>
    ensures { Passes result cursor.new (some_at most T.found_at cursor.old) }
{
    let count = cursor.u8()?;
    if count < 1 {
        return Err(FormError::BadForm);
    }
    if count > most {
        return Err(FormError::BadForm);
    }
    skip_many::<T>(cursor, u16::from(count))
}

/// Appends the items, one after the other.
pub fn write_each<T: Encoded>(items: &[T], out: &mut Writer) -> Result<(), Memory>
    requires { AllByRecursion T.Fits items.now }
    ensures ok { OnOk result (out.new ≡ out.old ++ each T.encoding items.now) }
    ensures err { OnErr result (Begins out.new out.old) }
{
    for item in items {
        item.encode(out)?;
    }
    Ok(())
}

/// Appends a count and the items.
pub fn write_counted<T: Encoded>(items: &Sequence<T>, out: &mut Writer) -> Result<(), Memory>
    requires few { length items.now < 256 }
    requires fit { AllByRecursion T.Fits items.now }
    ensures ok { OnOk result (out.new ≡ out.old ++ counted T.encoding items.now) }
    ensures err { OnErr result (Begins out.new out.old) }
{
    out.u8(items.len() as u8)?;
    write_each(items.as_slice(), out)
}

/// Whether each item fits.
pub fn each_fits<T: Encoded>(items: &[T]) -> bool
    ensures { IsTrue result ↔ AllByRecursion T.Fits items.now }
{
    for item in items {
        if !item.fits() {
            return false;
        }
    }
    true
}

/// Whether there are at most so many items, each of which fits.
pub fn few_fit<T: Encoded>(items: &Sequence<T>, most: u8) -> bool
    ensures { IsTrue result ↔ ((length items.now ≤ most) × AllByRecursion T.Fits items.now) }
{
    if items.len() > most as usize {
        return false;
    }
    each_fits(items.as_slice())
}

/// What is left of so much room behind the items.
pub fn room_each<T: Encoded>(items: &[T], room: usize) -> Option<usize>
    ensures { LeavesRoom (each T.encoding items.now) room result }
{
    let mut left = room;
    for item in items {
        left = item.room(left)?;
    }
    Some(left)
}

/// What is left of so much room behind a count and the items.
pub fn room_counted<T: Encoded>(items: &Sequence<T>, room: usize) -> Option<usize>
    ensures { LeavesRoom (counted T.encoding items.now) room result }
{
    let room = room.checked_sub(1)?;
    room_each(items.as_slice(), room)
}

/// An equal list.
pub fn copy_each<T: Encoded>(alloc: Global, items: &Sequence<T>) -> Result<Sequence<T>, Memory>
    ensures { IfOk result (λ copied. copied ≡ items.now) }
{
    let mut copied = Sequence::new(alloc);
    let items = items.as_slice();
    for item in items {
        copied.push(item.copy(alloc)?)?;
    }
    Ok(copied)
}

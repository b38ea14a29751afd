//! Values behind their length in four bytes.
ghost use Rattle.std.specs.Prelude.{◌≡◌, ◌<◌, ◌^◌, ◌++◌, length, OnOk, OnErr};
ghost use Rattle.cs_tx_value.specs.Reading.{ReadsValue, Passes, Begins, LeavesRoom};
ghost use Rattle.cs_tx_types.specs.Sized.{sized, sized_at};

use cs_base::{Cursor, Memory, Writer};
use cs_tx_value::{Encoded, FormError};
use std::alloc::Global;

/// The greatest length that four bytes hold.
pub(crate) const LONGEST: usize = 4294967295;

/// A length, and a value of just so many bytes.
#[tactic(auto, unfolding(crate::specs::Sized::sized_at))]
pub fn read_sized<T: Encoded>(alloc: Global, cursor: &mut Cursor<'_>) -> Result<T, FormError>
    ensures { ReadsValue result cursor.new (sized_at T.found_at cursor.old) }
{
    let size = cursor.u32()?;
    let before = cursor.len();
    let value = T::read(alloc, cursor)?;
    if before.saturating_sub(cursor.len()) != size as usize {
        return Err(FormError::BadForm);
    }
    Ok(value)
}

/// Passes over a length and a value of just so many bytes.
#[tactic(auto, unfolding(crate::specs::Sized::sized_at))]
pub fn skip_sized<T: Encoded>(cursor: &mut Cursor<'_>) -> Result<(), FormError>
    ensures { Passes result cursor.new (sized_at T.found_at cursor.old) }
{
    let size = cursor.u32()?;
    let before = cursor.len();
    T::skip(cursor)?;
    if before.saturating_sub(cursor.len()) != size as usize {
        return Err(FormError::BadForm);
    }
    Ok(())
}

// The length of the encoding of a value.
fn size_of<T: Encoded>(value: &T) -> u32
    requires { length (T.encoding value.now) < 2 ^ 32 }
    ensures { result ≡ length (T.encoding value.now) }
{
    let left = value.room(LONGEST).unwrap_or(0);
    (LONGEST - left) as u32
}

/// Appends the length of a value and the value.
#[tactic(auto, unfolding(crate::specs::Sized::sized))]
pub fn write_sized<T: Encoded>(value: &T, out: &mut Writer) -> Result<(), Memory>
    requires fits { T.Fits value.now }
    requires small { length (T.encoding value.now) < 2 ^ 32 }
    ensures ok { OnOk result (out.new ≡ out.old ++ sized T.encoding value.now) }
    ensures err { OnErr result (Begins out.new out.old) }
{
    out.u32(size_of(value))?;
    value.encode(out)
}

/// What is left of so much room behind the length of a value and the value.
#[tactic(auto, unfolding(crate::specs::Sized::sized))]
pub fn room_sized<T: Encoded>(value: &T, room: usize) -> Option<usize>
    ensures { LeavesRoom (sized T.encoding value.now) room result }
{
    let room = room.checked_sub(4)?;
    value.room(room)
}

//! The types that have an encoding.
ghost use Rattle.std.specs.Prelude.{◌≡◌, ◌++◌, ◌<◌, ◌≤◌, ◌^◌, ℕ, List, length, ◌↔◌, IsTrue, IfOk, IsOk, OnOk, OnErr, IsErrOf};
ghost use Rattle.cs_base.specs.Fields.{Found, IsForm, whole_at};
ghost use Rattle.cs_tx_value.specs.Reading.{ReadsValue, GivesAll, Passes, PassesAll, Begins, AnswersValue, LeavesRoom};
ghost use Rattle.cs_tx_value.specs.declared.form.FormError.TheVariants.{TooLong, Memory as NoMemory};

use crate::form::FormError;
use cs_base::{Cursor, Memory, Writer};
use std::alloc::Global;

/// A type whose values have one encoding each, where they are within all limits.
pub trait Encoded: Sized + Drop {
    /// The bytes of a value.
    ghost encoding: { Self → List ℕ };

    /// The value is within all limits, so it has an encoding.
    ghost Fits: { Self → Type 0 };

    /// What stands at the front of a list of bytes.
    ghost found_at: { List ℕ → Found Self };

    ghost LIMIT: { ℕ };

    /// The greatest length that is read: `TooLong` comes above it.
    const LIMIT: usize;

    /// Reads a value at the cursor.
    fn read(alloc: Global, cursor: &mut Cursor<'_>) -> Result<Self, FormError>
        ensures { ReadsValue result cursor.new (found_at cursor.old) };

    /// Passes over a value at the cursor.
    fn skip(cursor: &mut Cursor<'_>) -> Result<(), FormError>
        ensures { Passes result cursor.new (found_at cursor.old) };

    /// Appends the encoding.
    fn encode(&self, out: &mut Writer) -> Result<(), Memory>
        requires { Fits self.now }
        ensures ok { OnOk result (out.new ≡ out.old ++ encoding self.now) }
        ensures err { OnErr result (Begins out.new out.old) };

    /// Whether the value has an encoding.
    fn fits(&self) -> bool
        ensures { IsTrue result ↔ Fits self.now };

    /// What is left of so much room behind the encoding, or None where the encoding is longer.
    fn room(&self, room: usize) -> Option<usize>
        ensures { LeavesRoom (encoding self.now) room result };

    /// An equal value.
    fn copy(&self, alloc: Global) -> Result<Self, Memory>
        ensures { IfOk result (λ copied. copied ≡ self.now) };

    ghost form: { IsForm encoding Fits found_at };

    ghost short: { (value : Self) → Fits value → length (encoding value) < 2 ^ 64
        → length (encoding value) ≤ LIMIT };

    /// The encoding of the value, which takes the room that it needs at once.
    final fn to_bytes(&self, alloc: Global) -> Result<Vec<u8>, Memory>
        requires { Self.Fits self.now }
        ensures { IfOk result (λ bytes. bytes.items ≡ Self.encoding self.now) }
    {
        let left = self.room(Self::LIMIT).unwrap_or(0);
        let mut out = Writer::with_room(alloc, Self::LIMIT.saturating_sub(left))?;
        self.encode(&mut out)?;
        Ok(out.into_bytes())
    }

    /// The value that the bytes encode, all of the bytes.
    final fn decode(alloc: Global, bytes: &[u8]) -> Result<Self, FormError>
        // What is answered has this encoding.
        ensures found { IfOk result (λ value. Self.Fits value × (bytes.now ≡ Self.encoding value)) }
        // What the bytes encode is answered, unless memory ran out.
        ensures only { (value : Self) → Self.Fits value → bytes.now ≡ Self.encoding value
            → AnswersValue result value }
        ensures long { IsErrOf result TooLong ↔ (Self.LIMIT < length bytes.now) }
    {
        if bytes.len() > Self::LIMIT {
            return Err(FormError::TooLong);
        }
        whole(alloc, bytes)
    }

    /// Whether the bytes are an encoding, as `decode` finds, without the value.
    final fn check_form(bytes: &[u8]) -> Result<(), FormError>
        // Some value has this encoding.
        ensures found { IfOk result (λ _.
            (value : Self) × Self.Fits value × (bytes.now ≡ Self.encoding value)) }
        // An encoding is found to be one.
        ensures only { (value : Self) → Self.Fits value → bytes.now ≡ Self.encoding value
            → IsOk result }
        ensures long { IsErrOf result TooLong ↔ (Self.LIMIT < length bytes.now) }
        ensures memory { IsErrOf result NoMemory → ⊥ }
    {
        if bytes.len() > Self::LIMIT {
            return Err(FormError::TooLong);
        }
        passes::<Self>(bytes)
    }
}

fn whole<T: Encoded>(alloc: Global, bytes: &[u8]) -> Result<T, FormError>
    ensures { GivesAll result (whole_at T.found_at bytes.now) }
{
    let mut cursor = Cursor::new(bytes);
    let value = T::read(alloc, &mut cursor)?;
    if cursor.len() != 0 {
        return Err(FormError::BadForm);
    }
    Ok(value)
}

fn passes<T: Encoded>(bytes: &[u8]) -> Result<(), FormError>
    ensures { PassesAll result (whole_at T.found_at bytes.now) }
{
    let mut cursor = Cursor::new(bytes);
    T::skip(&mut cursor)?;
    if cursor.len() != 0 {
        return Err(FormError::BadForm);
    }
    Ok(())
}

//! The types that have an encoding in each version.
ghost use Rattle.std.specs.Prelude.{◌≡◌, ◌++◌, ◌<◌, ◌≤◌, ◌^◌, ℕ, List, length, ◌↔◌, IsTrue, IfOk, IsOk, OnOk, OnErr, IsErrOf};
ghost use Rattle.cs_base.specs.Fields.{Found, IsForm, whole_at};
ghost use Rattle.cs_base.specs.declared.version.Version.{Version as Edition};
ghost use Rattle.cs_base.specs.Version.{IsVersion, version_of};
ghost use Rattle.cs_tx_value.specs.Reading.{ReadsValue, GivesAll, Passes, PassesAll, Begins, AnswersValue, LeavesRoom};
ghost use Rattle.cs_tx_value.specs.declared.form.FormError.TheVariants.{TooLong, Memory as NoMemory};

use cs_base::{Cursor, Memory, Version, Writer};
use cs_tx_value::FormError;
use std::alloc::Global;

/// A type whose values have one encoding each in a version, where they are within its limits.
pub trait Versioned: Sized + Drop {
    /// The bytes of a value.
    ghost encoding: { Edition → Self → List ℕ };

    /// The value is within all limits of the version, so it has an encoding there.
    ghost Fits: { Edition → Self → Type 0 };

    /// What stands at the front of a list of bytes.
    ghost found_at: { Edition → List ℕ → Found Self };

    ghost most: { Edition → ℕ };

    /// The greatest length that is read: `TooLong` comes above it.
    fn longest(version: Version) -> usize
        ensures { result ≡ most version };

    /// Reads a value at the cursor.
    fn read(alloc: Global, cursor: &mut Cursor<'_>, version: Version) -> Result<Self, FormError>
        ensures { ReadsValue result cursor.new (found_at version cursor.old) };

    /// Passes over a value at the cursor.
    fn skip(cursor: &mut Cursor<'_>, version: Version) -> Result<(), FormError>
        ensures { Passes result cursor.new (found_at version cursor.old) };

    /// Appends the encoding.
    fn write(&self, out: &mut Writer, version: Version) -> Result<(), Memory>
        requires { Fits version self.now }
        ensures ok { OnOk result (out.new ≡ out.old ++ encoding version self.now) }
        ensures err { OnErr result (Begins out.new out.old) };

    /// Whether the value has an encoding.
    fn is_within(&self, version: Version) -> bool
        ensures { IsTrue result ↔ Fits version self.now };

    /// What is left of so much room behind the encoding, or None where the encoding is longer.
    fn room(&self, room: usize, version: Version) -> Option<usize>
        ensures { LeavesRoom (encoding version self.now) room result };

    /// An equal value.
    fn copy(&self, alloc: Global) -> Result<Self, Memory>
        ensures { IfOk result (λ copied. copied ≡ self.now) };

    ghost form: { (version : Edition) → IsForm (encoding version) (Fits version) (found_at version) };

    ghost short: { (version : Edition) (value : Self) → Fits version value
        → length (encoding version value) < 2 ^ 64 → length (encoding version value) ≤ most version };

    /// Appends the encoding in the version of this number.
    final fn encode(&self, out: &mut Writer, version: u8) -> Result<(), Memory>
        requires version { IsVersion version }
        requires fits { Self.Fits (version_of version) self.now }
        ensures ok { OnOk result (out.new ≡ out.old ++ Self.encoding (version_of version) self.now) }
        ensures err { OnErr result (Begins out.new out.old) }
    {
        self.write(out, Version::of(version))
    }

    /// Whether the value has an encoding in the version of this number.
    final fn fits(&self, version: u8) -> bool
        requires { IsVersion version }
        ensures { IsTrue result ↔ Self.Fits (version_of version) self.now }
    {
        self.is_within(Version::of(version))
    }

    /// The encoding of the value, which takes the room that it needs at once.
    final fn to_bytes(&self, alloc: Global, version: Version) -> Result<Vec<u8>, Memory>
        requires { Self.Fits version self.now }
        ensures { IfOk result (λ bytes. bytes.items ≡ Self.encoding version self.now) }
    {
        let longest = Self::longest(version);
        let left = self.room(longest, version).unwrap_or(0);
        let mut out = Writer::with_room(alloc, longest.saturating_sub(left))?;
        self.write(&mut out, version)?;
        Ok(out.into_bytes())
    }

    /// The value that the bytes encode in the version of this number, all of the bytes.
    final fn decode(alloc: Global, bytes: &[u8], version: u8) -> Result<Self, FormError>
        requires { IsVersion version }
        // What is answered has this encoding.
        ensures found { IfOk result (λ value. Self.Fits (version_of version) value
            × (bytes.now ≡ Self.encoding (version_of version) value)) }
        // What the bytes encode is answered, unless memory ran out.
        ensures only { (value : Self) → Self.Fits (version_of version) value
            → bytes.now ≡ Self.encoding (version_of version) value → AnswersValue result value }
        ensures long { IsErrOf result TooLong ↔ (Self.most (version_of version) < length bytes.now) }
    {
        let version = Version::of(version);
        if bytes.len() > Self::longest(version) {
            return Err(FormError::TooLong);
        }
        whole(alloc, bytes, version)
    }

    /// Whether the bytes are an encoding, as `decode` finds, without the value.
    final fn check_form(bytes: &[u8], version: u8) -> Result<(), FormError>
        requires { IsVersion version }
        // Some value has this encoding.
        ensures found { IfOk result (λ _. (value : Self) × Self.Fits (version_of version) value
            × (bytes.now ≡ Self.encoding (version_of version) value)) }
        // An encoding is found to be one.
        ensures only { (value : Self) → Self.Fits (version_of version) value
            → bytes.now ≡ Self.encoding (version_of version) value → IsOk result }
        ensures long { IsErrOf result TooLong ↔ (Self.most (version_of version) < length bytes.now) }
        ensures memory { IsErrOf result NoMemory → ⊥ }
    {
        let version = Version::of(version);
        if bytes.len() > Self::longest(version) {
            return Err(FormError::TooLong);
        }
        passes::<Self>(bytes, version)
    }
}

fn whole<T: Versioned>(alloc: Global, bytes: &[u8], version: Version) -> Result<T, FormError>
    ensures { GivesAll result (whole_at (T.found_at version) bytes.now) }
{
    let mut cursor = Cursor::new(bytes);
    let value = T::read(alloc, &mut cursor, version)?;
    if cursor.len() != 0 {
        return Err(FormError::BadForm);
    }
    Ok(value)
}

fn passes<T: Versioned>(bytes: &[u8], version: Version) -> Result<(), FormError>
    ensures { PassesAll result (whole_at (T.found_at version) bytes.now) }
{
    let mut cursor = Cursor::new(bytes);
    T::skip(&mut cursor, version)?;
    if cursor.len() != 0 {
        return Err(FormError::BadForm);
    }
    Ok(())
}

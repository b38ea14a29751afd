//! The texts of bytes.
ghost use Rattle.std.specs.Prelude.{◌≡◌, ℕ, List, IfOk, Some, string_bytes};
ghost use Rattle.cs_base.specs.Fields.{IsBytes};
ghost use Rattle.cs_base.specs.Codes.{bytes_of, bytes_text};

use crate::memory::Memory;
use crate::sequence::Sequence;
use hex::FromHexError;
use std::alloc::Global;

/// The bytes of which the field is the text: hex of either case with an even number of digits, or
/// `-` for no byte.
pub fn read_bytes(alloc: Global, field: &[u8]) -> Result<Option<Sequence<u8>>, Memory>
    ensures { IfOk result (λ bytes. bytes ≡ bytes_of field.now) }
{
    if field == b"-".as_slice() {
        return Ok(Some(Sequence::new(alloc)));
    }
    match hex::decode(alloc, field) {
        Ok(bytes) => Ok(Some(Sequence::from_vec(bytes))),
        Err(FromHexError::OutOfMemory) => Err(Memory),
        Err(_) => Ok(None),
    }
}

/// The text of bytes: lower-case hex, or `-` for no byte.
pub fn print_bytes(alloc: Global, bytes: &[u8]) -> Result<String, Memory>
    ensures { IfOk result (λ text. string_bytes text ≡ bytes_text bytes.now) }
{
    if bytes.is_empty() {
        return Ok(String::from_str(alloc, "-")?);
    }
    Ok(hex::encode(alloc, bytes)?)
}

/// What is printed of bytes is read as those bytes.
pub fn printed_bytes_are_read()
    ensures { (bytes : List ℕ) → IsBytes bytes → bytes_of (bytes_text bytes) ≡ Some bytes }
{}

//! What the fields of a line say.
ghost use Rattle.std.specs.Prelude.{◌≡◌, ◌≤◌, IfOk};
ghost use Rattle.std.specs.Option.{ok_or};
ghost use Rattle.cs_base.specs.Codes.{number_of};
ghost use Rattle.cs_base.specs.Lines.{views};
ghost use Rattle.cs_text.specs.Reading.{GivesStep, Lends};
ghost use Rattle.cs_text.specs.Values.{number_within, bytes_within, digest_in, only_field, no_field, number_said, digest_said};
ghost use Rattle.cs_text.specs.declared.cause.Cause.TheVariants as cause;

use crate::cause::Cause;
use crate::error::LineError;
use cs_base::{Sequence, read_bytes, read_number};
use std::alloc::Global;

/// The field of a line that has one.
pub fn only_field<'a>(fields: &[&'a [u8]]) -> Result<&'a [u8], Cause>
    ensures { Lends result (only_field (views fields.now)) }
{
    match fields {
        [field] => Ok(field),
        _ => Err(Cause::Count),
    }
}

/// Whether a line has its word alone.
pub fn no_field(fields: &[&[u8]]) -> Result<(), Cause>
    ensures { result ≡ no_field (views fields.now) }
{
    match fields {
        [] => Ok(()),
        _ => Err(Cause::Count),
    }
}

/// The number of a line that has one.
pub fn only_number(fields: &[&[u8]]) -> Result<u64, Cause>
    ensures { result ≡ number_said (views fields.now) }
{
    let field = only_field(fields)?;
    read_field_number(field)
}

/// 32 bytes in hex, of a line that has one field.
pub fn read_digest_line(alloc: Global, fields: &[&[u8]]) -> Result<[u8; 32], LineError>
    ensures { GivesStep result (digest_said (views fields.now)) }
{
    let field = only_field(fields)?;
    read_digest(alloc, field)
}

/// The number in a field.
pub fn read_field_number(field: &[u8]) -> Result<u64, Cause>
    ensures { result ≡ ok_or (number_of field.now) cause.Number }
{
    read_number(field).ok_or(Cause::Number)
}

/// The number in a field, of at most so much.
pub fn read_number_within(field: &[u8], most: u64) -> Result<u64, Cause>
    ensures value { result ≡ number_within most field.now }
    ensures within { IfOk result (λ number. number ≤ most) }
{
    let number = read_field_number(field)?;
    if number > most {
        return Err(Cause::Limit);
    }
    Ok(number)
}

/// The bytes that a field has in hex, at most so many.
pub fn read_bytes_within(
    alloc: Global,
    field: &[u8],
    most: usize,
) -> Result<Sequence<u8>, LineError>
    ensures { GivesStep result (bytes_within most field.now) }
{
    let Some(bytes) = read_bytes(alloc, field)? else {
        return Err(LineError::Bad(Cause::Hex));
    };
    if bytes.len() > most {
        return Err(LineError::Bad(Cause::Limit));
    }
    Ok(bytes)
}

/// The 32 bytes that a field has in hex.
pub fn read_digest(alloc: Global, field: &[u8]) -> Result<[u8; 32], LineError>
    ensures { GivesStep result (digest_in field.now) }
{
    let Some(bytes) = read_bytes(alloc, field)? else {
        return Err(LineError::Bad(Cause::Hex));
    };
    if bytes.len() != 32 {
        return Err(LineError::Bad(Cause::Hex));
    }
    let mut digest = [0; 32];
    digest.copy_from_slice(bytes.as_slice());
    Ok(digest)
}

//! What one field of a line holds, or why it is refused.
ghost use Rattle.cs_text.specs.Reading.{GivesStep};
ghost use Rattle.cs_verify.specs.Forms.{encoded_proof, proof_in, datagram_in};

use crate::datagram::proof_body;
use cs_base::{MOST_BODY, MOST_DATAGRAM};
use cs_check_rules::Proof;
use cs_text::{Cause, LineError, read_bytes_within};
use cs_tx::{FormError, Versioned};
use std::alloc::Global;

// The proof of which these bytes are the encoding.
fn decode_proof(alloc: Global, bytes: &[u8]) -> Result<Proof, LineError>
    ensures { GivesStep result (encoded_proof bytes.now) }
{
    match Proof::decode(alloc, bytes, 1) {
        Ok(proof) => Ok(proof),
        Err(FormError::Memory) => Err(LineError::Memory),
        Err(FormError::BadForm) => Err(LineError::Bad(Cause::Object)),
        Err(FormError::TooLong) => Err(LineError::Bad(Cause::Object)),
    }
}

/// The proof whose body stands in a field.
pub(crate) fn read_proof(alloc: Global, field: &[u8]) -> Result<Proof, LineError>
    ensures { GivesStep result (proof_in field.now) }
{
    let bytes = read_bytes_within(alloc, field, MOST_BODY)?;
    decode_proof(alloc, bytes.as_slice())
}

/// The proof whose datagram stands in a field.
pub(crate) fn read_datagram(alloc: Global, field: &[u8]) -> Result<Proof, LineError>
    ensures { GivesStep result (datagram_in field.now) }
{
    let bytes = read_bytes_within(alloc, field, MOST_DATAGRAM)?;
    match proof_body(bytes.as_slice()) {
        Some(body) => decode_proof(alloc, body),
        None => Err(LineError::Bad(Cause::Object)),
    }
}

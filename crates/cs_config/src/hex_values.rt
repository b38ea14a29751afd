//! What texts of hex digits say.
ghost use Rattle.std.specs.Prelude.{◌≡◌, IfOk, IfSome, option_map, option_and_then};
ghost use Rattle.cs_base.specs.Fields.{whole_at};
ghost use Rattle.cs_tx_value.specs.Object.{ObjectFits, object_at};
ghost use Rattle.cs_config.specs.Items.{hex_of, whole_digest, contract_id_in};

use cs_base::Memory;
use cs_tx::id_of_token;
use cs_tx_value::{Digest, Encoded, FormError, Object};
use hex::FromHexError;
use std::alloc::Global;

/// The bytes of hex digits of either case, in pairs.
pub fn read_hex(alloc: Global, text: &str) -> Result<Option<Vec<u8>>, Memory>
    ensures { IfOk result (λ bytes. option_map (λ b. b.items) bytes ≡ hex_of text.now) }
{
    match hex::decode(alloc, text.as_bytes()) {
        Ok(bytes) => Ok(Some(bytes)),
        Err(FromHexError::OutOfMemory) => Err(Memory),
        Err(_) => Ok(None),
    }
}

// The digest of so many bytes, where they are 32.
fn digest_of(bytes: &[u8]) -> Option<Digest>
    ensures { result ≡ whole_digest bytes.now }
{
    if bytes.len() != 32 {
        return None;
    }
    let mut digest = [0; 32];
    digest.copy_from_slice(bytes);
    Some(digest)
}

/// The digest of which the text is the hex.
pub fn read_digest(alloc: Global, text: &str) -> Result<Option<Digest>, Memory>
    ensures { IfOk result (λ digest. digest ≡ option_and_then whole_digest (hex_of text.now)) }
{
    match read_hex(alloc, text)? {
        Some(bytes) => Ok(digest_of(&bytes)),
        None => Ok(None),
    }
}

/// The contract's id of which the text is the hex; or that of `token`, by its name.
pub fn read_contract(alloc: Global, text: &str) -> Result<Option<Digest>, Memory>
    ensures { IfOk result (λ contract. contract ≡ contract_id_in text.now) }
{
    if text == "token" {
        return Ok(Some(id_of_token()));
    }
    read_digest(alloc, text)
}

// The object of which these bytes are the encoding.
fn decode_object(alloc: Global, bytes: &[u8]) -> Result<Option<Object>, Memory>
    ensures given { IfOk result (λ object. object ≡ whole_at object_at bytes.now) }
    ensures fits { IfOk result (λ object. IfSome object ObjectFits) }
{
    match Object::decode(alloc, bytes) {
        Ok(object) => Ok(Some(object)),
        Err(FormError::Memory) => Err(Memory),
        Err(FormError::BadForm) => Ok(None),
        Err(FormError::TooLong) => Ok(None),
    }
}

/// The object of whose encoding the text is the hex.
pub fn read_object(alloc: Global, text: &str) -> Result<Option<Object>, Memory>
    ensures given { IfOk result (λ object.
        object ≡ option_and_then (whole_at object_at) (hex_of text.now)) }
    ensures fits { IfOk result (λ object. IfSome object ObjectFits) }
{
    match read_hex(alloc, text)? {
        Some(bytes) => decode_object(alloc, &bytes),
        None => Ok(None),
    }
}

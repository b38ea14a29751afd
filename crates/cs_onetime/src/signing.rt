//! The texts of a signature.
ghost use Rattle.std.specs.Prelude.{◌≡◌, ◌<◌, ◌+◌, ◌*◌, IfOk};
ghost use Rattle.cs_onetime.specs.Signature.{signed_half, signed_text, signature, texts_in};

use crate::halves::{PLACES, bit_of, image, secret};
use cs_base::Memory;
use cs_hash::{Digest, TagKey};
use std::alloc::Global;

// The secret of the message's bit at a place; from place 128 on, the image of the other one.
fn signed_half(seed: &TagKey, number: u64, message: &Digest, place: u8) -> [u8; 16]
    ensures { result ≡ signed_half seed.now number message.now place }
{
    if place < PLACES {
        return secret(seed, number, place, bit_of(message, place));
    }
    let other = 1 - bit_of(message, place - PLACES);
    image(&secret(seed, number, place - PLACES, other))
}

fn signed_text(
    alloc: Global,
    seed: &TagKey,
    number: u64,
    message: &Digest,
    text: u8,
) -> Result<Vec<u8>, Memory>
    requires { text < 16 }
    ensures { IfOk result (λ bytes. bytes.items ≡ signed_text seed.now number message.now text) }
{
    let mut bytes = Vec::new(alloc);
    for column in 0..16u8 {
        let half = signed_half(seed, number, message, 16 * text + column);
        bytes.extend_from_slice(half.as_slice())?;
    }
    Ok(bytes)
}

/// The signature of a message under the key of a number.
pub fn signature(
    alloc: Global,
    seed: &Digest,
    number: u64,
    message: &Digest,
) -> Result<Vec<Vec<u8>>, Memory>
    ensures { IfOk result (λ texts. texts_in texts.items ≡ signature seed.now number message.now) }
{
    let key = TagKey::new(seed);
    let mut texts = Vec::new(alloc);
    for text in 0..16u8 {
        texts.push(signed_text(alloc, &key, number, message, text)?)?;
    }
    Ok(texts)
}

//! Whether texts are a signature of a message.
ghost use Rattle.std.specs.Prelude.{◌≡◌, ◌<◌, ◌↔◌, IsTrue, length, take, drop, ◌*◌};
ghost use Rattle.cs_onetime.specs.Lists.{joined};
ghost use Rattle.cs_onetime.specs.Signature.{AreSized, Verifies, half_in, shown_images, texts_in};
ghost use Rattle.sha2.specs.Sha256.{sha256};

use crate::halves::{HALF, PLACES, bit_of, image};
use crate::texts::{Texts, Vectors};
use cs_hash::{Digest, same};
use sha2::{Digest as Hasher, Sha256};

/// How many texts a signature has.
pub const TEXTS: usize = 16;

/// How many bytes a text has.
pub const TEXT: usize = 256;

fn are_sized<T: Texts>(texts: &T) -> bool
    ensures { IsTrue result ↔ AreSized (T.texts texts.now) }
{
    if texts.count() != TEXTS {
        return false;
    }
    for place in 0..TEXTS {
        if texts.text(place).len() != TEXT {
            return false;
        }
    }
    true
}

fn half_in(text: &[u8], column: usize) -> [u8; 16]
    requires sized { length text.now ≡ 256 }
    requires within { column < 16 }
    ensures { result ≡ half_in text.now column }
{
    let at = HALF * column;
    let mut half = [0; 16];
    half.copy_from_slice(&text[at..at + HALF]);
    half
}

// The hash of all images, those of what is revealed among them, each computed once.
fn shown_key<T: Texts>(message: &Digest, texts: &T) -> Digest
    requires { AreSized (T.texts texts.now) }
    ensures { result ≡ sha256 (joined (shown_images message.now (T.texts texts.now)) 128) }
{
    let mut hasher = Sha256::new();
    for place in 0..PLACES {
        let text = place as usize / TEXTS;
        let column = place as usize % TEXTS;
        let shown = image(&half_in(texts.text(text), column));
        let given = half_in(texts.text(8 + text), column);
        if bit_of(message, place) == 0 {
            hasher.update(shown);
            hasher.update(given);
        } else {
            hasher.update(given);
            hasher.update(shown);
        }
    }
    hasher.finalize()
}

/// Whether the texts, wherever they stand, are a signature of the message under the key. It takes no
/// memory, and hashes nothing where they aren't 16 of 256 bytes.
pub fn verify_texts<T: Texts>(key: &Digest, message: &Digest, texts: &T) -> bool
    ensures { IsTrue result ↔ Verifies key.now message.now (T.texts texts.now) }
{
    if !are_sized(texts) {
        return false;
    }
    same(&shown_key(message, texts), key)
}

/// Whether the texts are a signature of the message under the key: 16 of 256 bytes, where the images
/// of what is revealed and those that are given hash to the key, in the order of the message's bits.
pub fn verify(key: &Digest, message: &Digest, texts: &[Vec<u8>]) -> bool
    ensures { IsTrue result ↔ Verifies key.now message.now (texts_in texts.now) }
{
    verify_texts(key, message, &Vectors(texts))
}

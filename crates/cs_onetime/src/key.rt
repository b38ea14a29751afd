//! Public keys.
ghost use Rattle.std.specs.Prelude.{◌≡◌};
ghost use Rattle.cs_onetime.specs.Halves.{public_key};

use crate::halves::{PLACES, image, secret};
use cs_hash::{Digest, TagKey};
use sha2::{Digest as Hasher, Sha256};

/// The public key of a number: SHA-256 of the images of both secrets of each place. It takes no
/// memory.
pub fn public_key(seed: &Digest, number: u64) -> Digest
    ensures { result ≡ public_key seed.now number }
{
    let key = TagKey::new(seed);
    let mut hasher = Sha256::new();
    for place in 0..PLACES {
        hasher.update(image(&secret(&key, number, place, 0)));
        hasher.update(image(&secret(&key, number, place, 1)));
    }
    hasher.finalize()
}

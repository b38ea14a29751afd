//! Keys of tags that are hashed ahead.
ghost use Rattle.std.specs.Prelude.{◌≡◌, ◌++◌, ℕ, List};
ghost use Rattle.sha2.specs.Sha256.{sha256};
ghost use Rattle.sha2.specs.Hashers.{Holds256};
ghost use Rattle.cs_hash.specs.Hash.{masked, hmac};

use crate::Digest;
use crate::mac::{INNER, OUTER, block_of, started};
use sha2::{Digest as Hasher, Sha256};
use std::marker::Model;

/// A key of tags, hashed as far as it can be without the bytes: each tag under it costs two blocks
/// less. Contracts see it as the bytes of the key.
#[derive(Drop)]
pub struct TagKey {
    bytes: Digest,
    inner: Sha256,
    outer: Sha256,
}

impl Model for TagKey {
    ghost use Rattle.std.specs.Prelude.{ℕ, List};
    ghost use Rattle.sha2.specs.Hashers.{Holds256};
    ghost use Rattle.cs_hash.specs.Hash.{key_block, masked};

    ghost Value = { List ℕ };

    ghost view = { λ key. key.bytes };

    ghost invariant = { λ key.
        Holds256 key.inner (masked 54 (key_block key.bytes))
        × Holds256 key.outer (masked 92 (key_block key.bytes)) };
}

// SHA-256 of what a hasher holds and bytes.
fn finished(hasher: &Sha256, bytes: &[u8]) -> Digest
    ensures { (held : List ℕ) → Holds256 hasher.now held → result ≡ sha256 (held ++ bytes.now) }
{
    let mut hasher = hasher.clone().unwrap();
    hasher.update(bytes);
    hasher.finalize()
}

impl TagKey {
    /// The key of these bytes.
    pub fn new(bytes: &Digest) -> TagKey
        ensures { result ≡ bytes.now }
    {
        let block = block_of(bytes.as_slice());
        TagKey {
            bytes: *bytes,
            inner: started(&block, INNER),
            outer: started(&block, OUTER),
        }
    }

    /// HMAC-SHA-256 of bytes under the key.
    pub fn tag(&self, bytes: &[u8]) -> Digest
        ensures { result ≡ hmac self.now bytes.now }
    {
        finished(&self.outer, &finished(&self.inner, bytes))
    }
}

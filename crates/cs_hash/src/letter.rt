//! Digests of bytes behind a letter, which keeps digests of different things apart.
ghost use Rattle.std.specs.Prelude.{◌≡◌};
ghost use Rattle.cs_hash.specs.Hash.{tagged_digest};

use crate::Digest;
use sha2::{Digest as Hasher, Sha256};

/// SHA-256 of a letter's byte and bytes.
pub fn tagged(letter: u8, bytes: &[u8]) -> Digest
    ensures { result ≡ tagged_digest letter bytes.now }
{
    let mut hasher = Sha256::new();
    hasher.update([letter]);
    hasher.update(bytes);
    hasher.finalize()
}

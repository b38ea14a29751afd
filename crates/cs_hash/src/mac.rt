//! HMAC (RFC 2104) with SHA-256.
ghost use Rattle.std.specs.Prelude.{◌≡◌, ◌≤◌, ◌++◌, length};
ghost use Rattle.sha2.specs.Sha256.{sha256};
ghost use Rattle.sha2.specs.Hashers.{Holds256};
ghost use Rattle.cs_hash.specs.Hash.{filled_block, key_block, masked, hmac};

use crate::Digest;
use sha2::{Digest as Hasher, Sha256};

/// The bytes of a block of SHA-256.
const BLOCK: usize = 64;

/// Each byte of the inner pad.
pub const INNER: u8 = 0x36;

/// Each byte of the outer pad.
pub const OUTER: u8 = 0x5c;

// With zeros behind it, as long as a block.
#[tactic(auto, using(crate::proofs::Masks::filled_more))]
fn with_zeros(key: &[u8]) -> [u8; 64]
    requires { length key.now ≤ 64 }
    ensures { result ≡ filled_block key.now }
{
    let mut block = [0; 64];
    for i in 0..key.len() {
        block[i] = key[i];
    }
    block
}

/// The key itself, or its hash where it is longer than a block.
pub fn block_of(key: &[u8]) -> [u8; 64]
    ensures { result ≡ key_block key.now }
{
    if key.len() > BLOCK {
        return with_zeros(&Sha256::digest(key));
    }
    with_zeros(key)
}

fn mask(block: &[u8; 64], pad: u8) -> [u8; 64]
    ensures { result ≡ masked pad block.now }
{
    let mut masked = *block;
    for i in 0..BLOCK {
        masked[i] ^= pad;
    }
    masked
}

/// A hasher that holds the masked block.
pub fn started(block: &[u8; 64], pad: u8) -> Sha256
    ensures { Holds256 result (masked pad block.now) }
{
    let mut hasher = Sha256::new();
    hasher.update(mask(block, pad));
    hasher
}

// SHA-256 of the masked block and bytes.
fn keyed(block: &[u8; 64], pad: u8, bytes: &[u8]) -> Digest
    ensures { result ≡ sha256 (masked pad block.now ++ bytes.now) }
{
    let mut hasher = started(block, pad);
    hasher.update(bytes);
    hasher.finalize()
}

/// HMAC-SHA-256 of bytes under a key of any length.
pub fn tag(key: &[u8], bytes: &[u8]) -> Digest
    ensures { result ≡ hmac key.now bytes.now }
{
    let block = block_of(key);
    keyed(&block, OUTER, &keyed(&block, INNER, bytes))
}

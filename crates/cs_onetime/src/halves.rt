//! Secrets, their images, and the bits that choose between them.
ghost use Rattle.std.specs.Prelude.{◌≡◌, ◌<◌, ◌≤◌, ◌++◌, ◌∷◌, [], take, codes};
ghost use Rattle.std.specs.Int.{w64, to_be_bytes};
ghost use Rattle.cs_onetime.specs.Halves.{secret_text, secret, image, bit_of};

use cs_hash::{Digest, TagKey};
use sha2::{Digest as Hasher, Sha256};

/// How many bits of a message are signed.
pub const PLACES: u8 = 128;

/// How many bytes a secret and an image have.
pub const HALF: usize = 16;

fn front(digest: &Digest) -> [u8; 16]
    ensures { result ≡ take 16 digest.now }
{
    let mut half = [0; 16];
    half.copy_from_slice(&digest[..HALF]);
    half
}

// What is hashed for a secret.
fn secret_text(number: u64, place: u8, bit: u8) -> [u8; 14]
    ensures { result ≡ secret_text number place bit }
{
    let n = number.to_be_bytes();
    [
        b'h', b'a', b'l', b'f', n[0], n[1], n[2], n[3], n[4], n[5], n[6], n[7], place, bit,
    ]
}

/// The secret that is revealed where the message has this bit at this place.
#[tactic(auto, unfolding(crate::specs::Halves::secret))]
pub fn secret(seed: &TagKey, number: u64, place: u8, bit: u8) -> [u8; 16]
    ensures { result ≡ secret seed.now number place bit }
{
    front(&seed.tag(secret_text(number, place, bit).as_slice()))
}

/// What a key tells of a secret.
#[tactic(auto, unfolding(crate::specs::Halves::image))]
pub fn image(half: &[u8; 16]) -> [u8; 16]
    ensures { result ≡ image half.now }
{
    front(&Sha256::digest(half))
}

/// The bit of a message at a place, of each byte the most significant first.
pub fn bit_of(message: &Digest, place: u8) -> u8
    requires { place < 128 }
    ensures is { result ≡ bit_of message.now place }
    ensures small { result ≤ 1 }
{
    (message[place as usize / 8] >> (7 - place % 8)) % 2
}

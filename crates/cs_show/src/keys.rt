//! The key that a word says.
ghost use Rattle.std.specs.Prelude.{◌≡◌};
ghost use Rattle.cs_show.specs.Keys.{object_in, dummy_of, dummy_in, key_in};

use cs_base::{Key, read_number, split_at_byte};
use hex::FromHex;

/// The key that a word says: an object by the 64 hex digits of its name, a dummy by its shard and
/// its serial number, with a colon between them.
pub fn read_key(word: &[u8]) -> Option<Key>
    ensures { result ≡ key_in word.now }
{
    match read_object(word) {
        Some(key) => Some(key),
        None => read_dummy(word),
    }
}

fn read_object(word: &[u8]) -> Option<Key>
    ensures { result ≡ object_in word.now }
{
    match <[u8; 32] as FromHex>::from_hex(word) {
        Ok(name) => Some(Key::Object(name)),
        Err(_) => None,
    }
}

fn read_dummy(word: &[u8]) -> Option<Key>
    ensures { result ≡ dummy_in word.now }
{
    let (shard, serial) = split_at_byte(word, b':')?;
    dummy_of(read_number(shard), read_number(serial))
}

// The dummy of these numbers.
fn dummy_of(shard: Option<u64>, serial: Option<u64>) -> Option<Key>
    ensures { result ≡ dummy_of shard serial }
{
    let shard = u16::try_from(shard?).ok()?;
    let serial = serial?;
    Some(Key::Dummy(shard, serial))
}

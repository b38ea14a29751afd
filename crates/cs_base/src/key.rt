//! The names of objects, and the shards that hold them.
ghost use Rattle.std.specs.Prelude.{◌≡◌};
ghost use Rattle.std.specs.Ordering.{nat_cmp};
ghost use Rattle.std.specs.Cmp.Lexicographic.{slice_cmp};
ghost use Rattle.cs_base.specs.Key.{shard_of_key, key_bytes, IsInWidth};
ghost use Rattle.cs_base.specs.declared.key.Key.{Key};

use crate::config::Config;

/// The name of an object: a digest; or, for a dummy, its shard and its serial number.
#[derive(Clone, Copy, Debug, PartialEq, Eq, PartialOrd, Ord)]
pub enum Key {
    Object([u8; 32]),
    Dummy(u16, u64),
}

/// The shard that holds a key. For an object it is its last four bytes, as a number with the
/// highest byte first, modulo the number of shards.
pub fn shard_of(config: &Config, key: &Key) -> u16
    ensures { result ≡ shard_of_key config.now.shards key.now }
{
    match key {
        Key::Object(digest) => {
            let last = u32::from_be_bytes([digest[28], digest[29], digest[30], digest[31]]);
            (last % u32::from(config.shards)) as u16
        }
        Key::Dummy(shard, _) => *shard,
    }
}

/// Keys are ordered as the bytes that they are encoded by: objects before dummies, then by the
/// digest, or by the shard and the serial number.
pub fn keys_are_ordered_by_bytes()
    ensures { (a : Key) (b : Key) → IsInWidth a → IsInWidth b
        → ⟦<Key as Ord>⟧.cmp a b ≡ slice_cmp nat_cmp (key_bytes a) (key_bytes b) }
{}

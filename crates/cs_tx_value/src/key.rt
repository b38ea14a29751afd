//! The encoding of keys.
ghost use Rattle.std.specs.Prelude.{◌≡◌, ◌∷◌, ◌++◌, OnOk, OnErr};
ghost use Rattle.std.specs.Int.{w16, w64, to_be_bytes};
ghost use Rattle.cs_tx_value.specs.Reading.{Begins};

use crate::digest::Digest;
use crate::encoded::Encoded;
use crate::form::FormError;
use cs_base::{Cursor, Key, Memory, Writer};
use std::alloc::Global;

fn put_dummy(shard: u16, serial: u64, out: &mut Writer) -> Result<(), Memory>
    ensures ok { OnOk result
        (out.new ≡ out.old ++ (1 ∷ (to_be_bytes w16 shard ++ to_be_bytes w64 serial))) }
    ensures err { OnErr result (Begins out.new out.old) }
{
    out.u8(1)?;
    (shard, serial).encode(out)
}

impl Encoded for Key {
    ghost use Rattle.cs_tx_value.specs.laws.Limits.{unlimited};
    ghost use Rattle.cs_tx_value.specs.Key.{key_encoding, KeyFits, key_at};
    ghost use Rattle.cs_tx_value.specs.laws.Key.{key_form};

    ghost encoding = { key_encoding };

    ghost Fits = { KeyFits };

    ghost found_at = { key_at };

    ghost LIMIT = { 18446744073709551615 };

    const LIMIT: usize = usize::MAX;

    #[tactic(auto, unfolding(crate::specs::Kinds::kinds_at, cs_base::specs::Fields::pair_at))]
    fn read(alloc: Global, cursor: &mut Cursor<'_>) -> Result<Key, FormError> {
        match cursor.u8()? {
            0 => Ok(Key::Object(Digest::read(alloc, cursor)?)),
            1 => {
                let shard = cursor.u16()?;
                let serial = cursor.u64()?;
                Ok(Key::Dummy(shard, serial))
            }
            _ => Err(FormError::BadForm),
        }
    }

    #[tactic(auto, using(cs_base::proofs::Many::behind_map, cs_base::proofs::Many::behind_pair), unfolding(crate::specs::Kinds::kinds_at))]
    fn skip(cursor: &mut Cursor<'_>) -> Result<(), FormError> {
        match cursor.u8()? {
            0 => Digest::skip(cursor),
            1 => {
                u16::skip(cursor)?;
                u64::skip(cursor)
            }
            _ => Err(FormError::BadForm),
        }
    }

    fn encode(&self, out: &mut Writer) -> Result<(), Memory> {
        match self {
            Key::Object(digest) => {
                out.u8(0)?;
                digest.encode(out)
            }
            Key::Dummy(shard, serial) => put_dummy(*shard, *serial, out),
        }
    }

    fn fits(&self) -> bool {
        match self {
            Key::Object(digest) => digest.fits(),
            Key::Dummy(shard, serial) => shard.fits() && serial.fits(),
        }
    }

    fn room(&self, room: usize) -> Option<usize> {
        let room = room.checked_sub(1)?;
        match self {
            Key::Object(digest) => digest.room(room),
            Key::Dummy(shard, serial) => {
                let room = shard.room(room)?;
                serial.room(room)
            }
        }
    }

    fn copy(&self, _alloc: Global) -> Result<Key, Memory> {
        Ok(*self)
    }

    ghost form = { key_form };

    ghost short = { λ key fits lt. unlimited _ lt };
}

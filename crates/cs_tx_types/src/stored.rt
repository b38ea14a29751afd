//! Records under their keys.
use crate::record::Record;
use cs_base::{Cursor, Key, Memory, Writer};
use cs_tx_value::{Encoded, FormError};
use std::alloc::Global;

/// A key and its record: a leaf of the tree over the records of a shard.
#[derive(Drop)]
pub struct Stored {
    pub key: Key,
    pub value: Record,
}

impl Encoded for Stored {
    ghost use Rattle.cs_tx_value.specs.laws.Limits.{unlimited};
    ghost use Rattle.cs_tx_types.specs.Record.{stored_encoding, StoredFits, stored_at};
    ghost use Rattle.cs_tx_types.specs.laws.Record.{stored_form};

    ghost encoding = { stored_encoding };

    ghost Fits = { StoredFits };

    ghost found_at = { stored_at };

    ghost LIMIT = { 18446744073709551615 };

    const LIMIT: usize = usize::MAX;

    #[tactic(auto, unfolding(crate::specs::Record::stored_at, cs_base::specs::Fields::pair_at))]
    fn read(alloc: Global, cursor: &mut Cursor<'_>) -> Result<Stored, FormError> {
        let key = Key::read(alloc, cursor)?;
        let value = Record::read(alloc, cursor)?;
        Ok(Stored { key, value })
    }

    #[tactic(auto, unfolding(crate::specs::Record::stored_at, cs_base::specs::Fields::pair_at))]
    fn skip(cursor: &mut Cursor<'_>) -> Result<(), FormError> {
        Key::skip(cursor)?;
        Record::skip(cursor)
    }

    fn encode(&self, out: &mut Writer) -> Result<(), Memory> {
        self.key.encode(out)?;
        self.value.encode(out)
    }

    fn fits(&self) -> bool {
        self.key.fits() && self.value.fits()
    }

    fn room(&self, room: usize) -> Option<usize> {
        let room = self.key.room(room)?;
        self.value.room(room)
    }

    fn copy(&self, alloc: Global) -> Result<Stored, Memory> {
        Ok(Stored {
            key: self.key,
            value: self.value.copy(alloc)?,
        })
    }

    ghost form = { stored_form };

    ghost short = { λ value fits lt. unlimited _ lt };
}

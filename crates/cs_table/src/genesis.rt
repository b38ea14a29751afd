//! The table with which a shard begins.
ghost use Rattle.std.specs.Prelude.{◌≡◌, OnOk, IfOk, All, map, []};
ghost use Rattle.cs_base.specs.declared.config.Config.{Config};
ghost use Rattle.cs_tx_value.specs.Object.{ObjectFits, object_encoding};
ghost use Rattle.cs_ledger.specs.Table.{start, is_unknown};
ghost use Rattle.cs_table.specs.Seen.{seen, shown_at, seen_piece};
ghost use Rattle.cs_table.specs.Changes.{Becomes, appeared_each};
ghost use Rattle.cs_table.specs.Pieces.{pieces_in, PiecesFit};
ghost use Rattle.cs_tx.specs.Dummies.{dummy_object as the_dummy};
ghost use Rattle.cs_table.specs.Genesis.{keyed_of, genesis_rules, second_of, twice, FindsKeyTwice, with_dummy_objects, empty};

use crate::piece::Piece;
use crate::pieces::{add_piece, dummy_object};
use crate::table::Table;
use cs_base::{Config, Key, Memory};
use cs_tx::{Encoded, Object, State};
use std::alloc::{AllocError, Global};

/// Why a shard can't begin with some objects.
#[derive(Clone, Copy, Debug, PartialEq, Eq)]
pub enum TableError {
    /// A key of the shard stands twice: the first that does.
    Duplicate(Key),
    /// There was not enough memory.
    Memory,
}

impl From<Memory> for TableError {
    ghost use Rattle.std.specs.Prelude.{◌≡◌};
    ghost use Rattle.cs_table.specs.declared.genesis.TableError.TheVariants.{Memory as NoMemory};

    ghost from_gives = { λ _ e. e ≡ NoMemory };

    fn from(_e: Memory) -> TableError {
        TableError::Memory
    }
}

/// The objects of the shard, under their keys.
fn genesis_pieces(
    alloc: Global,
    config: &Config,
    shard: u16,
    objects: &[(Key, Object)],
) -> Result<Vec<Piece>, Memory>
    ensures { IfOk result (λ pieces.
        pieces.items ≡ pieces_in config.now.shards shard (keyed_of objects.now)) }
{
    let mut pieces = Vec::new(alloc);
    for item in objects {
        if let Key::Object(name) = item.0 {
            add_piece(alloc, &mut pieces, config, shard, name, &item.1)?;
        }
    }
    Ok(pieces)
}

impl Table {
    /// The table with which a shard of a configuration begins: these objects, those of other shards
    /// left out, and its first dummies. No key is a dummy's.
    pub fn genesis(
        alloc: Global,
        config: Config,
        shard: u16,
        objects: &[(Key, Object)],
    ) -> Result<Table, TableError>
        requires { All (λ item. ObjectFits item.1) objects.now }
        ensures table { IfOk result (λ table.
            seen table ≡ start (genesis_rules config objects.now) shard) }
        ensures shards { IfOk result (λ table. table.shards ≡ config.shards) }
        ensures shard { IfOk result (λ table. table.shard ≡ shard) }
        ensures touched { IfOk result (λ table. table.touched ≡ []) }
        ensures finds { FindsKeyTwice result (twice config.shards shard objects.now) }
    {
        let pieces = genesis_pieces(alloc, &config, shard, objects)?;
        let count = config.dummies;
        let mut table = Table::empty(alloc, config, shard);
        table.load(alloc, pieces.as_slice())?;
        table.load_dummies(alloc, count)?;
        table.forget_touched();
        Ok(table)
    }

    /// Whether nothing is known of a key.
    fn is_unknown(&self, key: &Key) -> bool
        ensures { result ≡ is_unknown (shown_at self.now key.now).state }
    {
        match self.record(key) {
            Some(row) => match &row.state {
                State::Unknown => true,
                State::Active(_) | State::Locked(_, _) | State::Inactive(_) | State::Shared(_, _) =>
                    false,
            },
            None => true,
        }
    }

    /// Makes objects active, of whose keys nothing is known.
    fn load(&mut self, alloc: Global, pieces: &[Piece]) -> Result<(), TableError>
        requires fits { PiecesFit pieces.now }
        requires empty { seen self.old ≡ empty self.old.next }
        ensures table { OnOk result (Becomes self.old self.new
            (appeared_each [] (map seen_piece pieces.now) (seen self.old))) }
        ensures finds { FindsKeyTwice result (second_of [] pieces.now) }
    {
        for piece in pieces {
            if !self.is_unknown(&piece.key) {
                return Err(TableError::Duplicate(piece.key));
            }
            let object = piece.object.copy(alloc)?;
            self.appear(alloc, &piece.key, object)?;
        }
        Ok(())
    }

    /// Makes the dummies of the first serials active.
    fn load_dummies(&mut self, alloc: Global, count: u16) -> Result<(), Memory>
        ensures { OnOk result (Becomes self.old self.new
            (with_dummy_objects self.old.shard count (object_encoding the_dummy) (seen self.old))) }
    {
        let shard = self.shard();
        for serial in 0..count {
            let object = dummy_object(alloc)?;
            self.appear(alloc, &Key::Dummy(shard, u64::from(serial)), object)?;
        }
        Ok(())
    }
}

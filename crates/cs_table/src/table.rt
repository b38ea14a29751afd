//! The table of a shard.
ghost use Rattle.std.specs.Prelude.{◌≡◌, [], ◌+◌, ◌-◌, ◌<◌, ◌^◌, ◌||◌, ◌&&◌, true, IfSome, OnOk, option_copied};
ghost use Rattle.cs_tx.specs.Votes.{vote_of};
ghost use Rattle.cs_tx_value.specs.Object.{object_encoding, ObjectFits};
ghost use Rattle.cs_ledger.specs.Session.{Key as Name, key_eq};
ghost use Rattle.cs_ledger.specs.Table.{is_active_with, is_readable_with, has_place};
ghost use Rattle.cs_table.specs.Seen.{seen, shown_at, row_in, seen_record, seen_row, seen_state, unknown_record, HoldsFit, IsKeptRecord, IsStored, RowFits, has_key_named, forgotten, IsKeyInWidth, IsKeptTable};
ghost use Rattle.cs_tx.specs.Sessions.{key_seen};
ghost use Rattle.cs_table.specs.Changes.{with_next, changed, changed_record, appeared_record, noted_record, ShowsTable, Becomes};

use crate::change::Change;
use crate::piece::Piece;
use crate::readers::has_seat;
use crate::record;
use cs_base::{Config, Key, Memory};
use cs_tx::{Digest, Object, State, Vote};
use cs_tx_types::Record;
use std::alloc::{AllocError, Global};
use std::collections::{BTreeMap, BTreeSet};
use std::marker::Model;

/// The records of a shard, and the keys whose records changed since they were forgotten.
#[derive(Drop)]
pub struct Table {
    config: Config,
    shard: u16,
    next: u64,
    rows: BTreeMap<Key, Record>,
    touched: BTreeSet<Key>,
}

impl Model for Table {
    ghost use Rattle.cs_table.specs.Seen.{Stored, IsKeptTable};
    ghost use Rattle.std.specs.Coded.{codes};
    ghost use Rattle.cs_tx_value.specs.contracts.value.Value as values;

    ghost Value = { Stored };

    ghost coded = { Prim.hlevel (codes, values.the_row.coded) };

    ghost view = { λ t. record {
      shards = t.config.shards;
      shard = t.shard;
      next = t.next;
      rows = t.rows.entries;
      touched = t.touched.keys;
    } };

    ghost invariant = { λ t. IsKeptTable t.rows.entries };
}

impl Table {
    /// A table with no record, of a shard of the configuration.
    pub(crate) fn empty(alloc: Global, config: Config, shard: u16) -> Table
        ensures { result ≡ record {
          shards = config.shards;
          shard = shard;
          next = config.dummies;
          rows = [];
          touched = [];
        } }
    {
        Table {
            shard,
            next: u64::from(config.dummies),
            rows: BTreeMap::new(alloc),
            touched: BTreeSet::new(alloc),
            config,
        }
    }

    pub(crate) fn config(&self) -> &Config
        ensures { result.now.shards ≡ self.now.shards }
    {
        &self.config
    }

    pub(crate) fn shard(&self) -> u16
        ensures { result ≡ self.now.shard }
    {
        self.shard
    }

    pub(crate) fn next(&self) -> u64
        ensures { result ≡ self.now.next }
    {
        self.next
    }

    pub(crate) fn rows(&self) -> &BTreeMap<Key, Record>
        ensures rows { result.now.entries ≡ self.now.rows }
        ensures kept { IsKeptTable result.now.entries }
    {
        &self.rows
    }

    pub(crate) fn touched_keys(&self) -> &BTreeSet<Key>
        ensures { result.now.keys ≡ self.now.touched }
    {
        &self.touched
    }

    /// From now on no key is touched, until its record changes.
    pub fn forget_touched(&mut self)
        ensures { self.new ≡ forgotten self.old }
    {
        self.touched.clear();
    }

    /// Takes the next serial of a dummy.
    pub(crate) fn next_serial(&mut self) -> u64
        requires { self.old.next < 2 ^ 64 - 1 }
        ensures serial { result ≡ self.old.next }
        ensures table { Becomes self.old self.new (with_next (self.old.next + 1) (seen self.old)) }
    {
        let serial = self.next;
        self.next += 1;
        serial
    }

    /// The record that is stored under a key. A key without one is Unknown, with an empty book.
    pub fn record(&self, key: &Key) -> Option<&Record>
        ensures row { option_copied result ≡ row_in self.now.rows (key_seen key.now) }
        ensures fits { IfSome result (λ row. HoldsFit row.now.state) }
        ensures stored { IfSome result (λ row. IsStored row.now) }
    {
        self.rows.get(key)
    }

    /// Whether exactly this object is active under its key.
    pub(crate) fn has_active(&self, piece: &Piece) -> bool
        requires { ObjectFits piece.now.object }
        ensures { result
            ≡ is_active_with (object_encoding piece.now.object)
            (shown_at self.now piece.now.key).state }
    {
        match self.record(&piece.key) {
            Some(row) => match &row.state {
                State::Active(object) => object.same(&piece.object),
                State::Unknown | State::Locked(_, _) | State::Inactive(_) | State::Shared(_, _) =>
                    false,
            },
            None => false,
        }
    }

    /// Whether exactly this object is under its key, for one more session to read.
    pub(crate) fn has_readable(&self, piece: &Piece) -> bool
        requires { ObjectFits piece.now.object }
        ensures { result
            ≡ is_readable_with (object_encoding piece.now.object)
            (shown_at self.now piece.now.key).state }
    {
        match self.record(&piece.key) {
            Some(row) => is_readable(&row.state, &piece.object),
            None => false,
        }
    }

    /// Takes the record of a key out.
    fn take(&mut self, alloc: Global, key: &Key) -> Record
        ensures row { seen_record result ≡ shown_at self.old key.now }
        ensures fits { IsKeptRecord result }
        ensures left { ShowsTable self.old self.new
            (changed (λ r. unknown_record) (key_seen key.now) (seen self.old)) }
        ensures touched { self.new.touched ≡ self.old.touched }
    {
        let row = self.rows.remove(key);
        row_or_unknown(alloc, row)
    }

    /// Puts the record of a key, which is touched where that is another record than it had. One of
    /// which nothing is known is not stored.
    fn put(&mut self, key: Key, row: Record, moved: bool) -> Result<(), Memory>
        requires gone { shown_at self.old key ≡ unknown_record }
        requires fits { IsKeptRecord row }
        ensures shown { OnOk result (ShowsTable self.old self.new
            (changed (λ r. seen_record row) (key_seen key) (seen self.old))) }
        ensures touched { OnOk result ((name : Name) → has_key_named self.new.touched name
            ≡ (has_key_named self.old.touched name || (moved && key_eq name (key_seen key)))) }
    {
        in_width(&key);
        touch(&mut self.touched, key, moved)?;
        if record::is_unknown(&row) {
            return Ok(());
        }
        if let Err(refused) = self.rows.insert(key, row) {
            return Err(AllocError::from(refused).into());
        }
        Ok(())
    }

    /// Changes the state of a key.
    pub(crate) fn change(&mut self, alloc: Global, key: &Key, change: Change) -> Result<(), Memory>
        ensures { OnOk result (Becomes self.old self.new
            (changed (changed_record change) (key_seen key.now) (seen self.old))) }
    {
        let mut row = self.take(alloc, key);
        let moved = record::change(alloc, &mut row, change)?;
        self.put(*key, row, moved)?;
        Ok(())
    }

    /// Makes an object active under a key of which nothing is known.
    pub(crate) fn appear(&mut self, alloc: Global, key: &Key, object: Object) -> Result<(), Memory>
        requires { ObjectFits object }
        ensures { OnOk result (Becomes self.old self.new
            (changed (appeared_record (object_encoding object)) (key_seen key.now)
            (seen self.old))) }
    {
        let mut row = self.take(alloc, key);
        let moved = record::appear(&mut row, object);
        self.put(*key, row, moved)?;
        Ok(())
    }

    /// Adds a vote to the book of a key, which has a place for it.
    pub(crate) fn note(
        &mut self,
        alloc: Global,
        key: &Key,
        session: Digest,
        vote: Vote,
    ) -> Result<(), Memory>
        requires { has_place (shown_at self.old key.now).book ≡ true }
        ensures { OnOk result (Becomes self.old self.new
            (changed (noted_record session (vote_of vote)) (key_seen key.now) (seen self.old))) }
    {
        let mut row = self.take(alloc, key);
        record::note(&mut row, session, vote)?;
        self.put(*key, row, true)?;
        Ok(())
    }
}

// Whether the state has exactly this object, for one more session to read.
fn is_readable(state: &State, object: &Object) -> bool
    requires object { ObjectFits object.now }
    requires state { HoldsFit state.now }
    ensures { result ≡ is_readable_with (object_encoding object.now) (seen_state state.now) }
{
    match state {
        State::Active(held) => held.same(object),
        State::Shared(held, readers) => held.same(object) && has_seat(readers),
        State::Unknown | State::Locked(_, _) | State::Inactive(_) => false,
    }
}

// What the type of a key says of its numbers.
fn in_width(key: &Key)
    ensures { IsKeyInWidth (key_seen key.now) }
{
    match key {
        Key::Object(_) => {}
        Key::Dummy(shard, serial) => {
            let _numbers = (*shard, *serial);
        }
    }
}

fn touch(touched: &mut BTreeSet<Key>, key: Key, moved: bool) -> Result<(), Memory>
    ensures { OnOk result ((name : Name) → has_key_named touched.new.keys name
        ≡ (has_key_named touched.old.keys name || (moved && key_eq name (key_seen key)))) }
{
    if moved {
        touched.insert(key)?;
    }
    Ok(())
}

fn row_or_unknown(alloc: Global, row: Option<Record>) -> Record
    ensures now { seen_record result ≡ seen_row row }
    ensures fits { RowFits row → IsKeptRecord result }
{
    match row {
        Some(row) => row,
        None => record::unknown(alloc),
    }
}

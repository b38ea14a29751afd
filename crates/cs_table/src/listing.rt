//! What a table lists: its records, the touched keys, and the dummy that comes first.
ghost use Rattle.std.specs.Prelude.{◌≡◌};
ghost use Rattle.std.specs.Map.{keys_of};
ghost use Rattle.std.specs.List.Sorted.{IsStrictlySortedBy};
ghost use Rattle.cs_base.specs.declared.key.Key.{Key};
ghost use Rattle.cs_table.specs.Seen.{seen, AllStored, KeysInWidth};
ghost use Rattle.cs_tx.specs.Sessions.{key_seen};
ghost use Rattle.cs_table.specs.Dummies.{IsLeastDummy, is_active, first_active};

use crate::table::Table;
use cs_base::Key;
use cs_tx::State;
use cs_tx_types::Record;
use std::collections::btree_map::{Iter, Range};
use std::collections::btree_set;

/// The records that are stored, each with its key.
pub type Records<'a> = Iter<'a, Key, Record>;

/// The touched keys.
pub type Touched<'a> = btree_set::Iter<'a, Key>;

/// Whether an object is there, which no session holds or reads.
fn is_active(row: &Record) -> bool
    ensures { result ≡ is_active row.now.state }
{
    match &row.state {
        State::Active(_) => true,
        State::Unknown | State::Locked(_, _) | State::Inactive(_) | State::Shared(_, _) => false,
    }
}

impl Table {
    /// All stored records under their keys, in rising order of the encoded keys.
    pub fn records(&self) -> Records<'_>
        ensures rows { result ≡ self.now.rows }
        ensures rising { IsStrictlySortedBy ⟦<Key as Ord>⟧.cmp (keys_of self.now.rows) }
        ensures stored { AllStored self.now.rows }
        ensures widths { KeysInWidth self.now.rows }
    {
        self.rows().iter()
    }

    /// The keys whose records calls changed since they were forgotten, each once, in rising order.
    pub fn touched(&self) -> Touched<'_>
        ensures keys { result ≡ self.now.touched }
        ensures rising { IsStrictlySortedBy ⟦<Key as Ord>⟧.cmp self.now.touched }
    {
        self.touched_keys().iter()
    }

    /// The active dummy of the least serial, or where none is active the one that is made next.
    /// It looks at the dummies of the shard in rising order up to the one that it gives.
    pub fn least_dummy(&self) -> Key
        ensures { IsLeastDummy self.now.shard (seen self.now) (key_seen result) }
    {
        let shard = self.shard();
        let dummies = Key::Dummy(shard, 0)..=Key::Dummy(shard, u64::MAX);
        match first_active(self.rows().range(dummies)) {
            Some(key) => key,
            None => Key::Dummy(shard, self.next()),
        }
    }
}

/// The first key under which an object is active.
fn first_active(rows: Range<'_, Key, Record>) -> Option<Key>
    ensures { result ≡ first_active rows.entry }
{
    for (key, row) in rows {
        if is_active(row) {
            return Some(*key);
        }
    }
    None
}

//! The hashes of the leaves of a table's records. Those that changed wait for the next root.
ghost use Rattle.std.specs.Prelude.{◌≡◌, ◌<◌, [], ◌∷◌, IfOk, OnOk};
ghost use Rattle.std.specs.Map.{keys_of, values_of, lookup};
ghost use Rattle.cs_tx_value.specs.Key.{key_encoding};
ghost use Rattle.cs_tx_types.specs.Record.{stored_encoding};
ghost use Rattle.cs_merkle.specs.Tree.{leaf_hash};
ghost use Rattle.cs_merkle_kept.specs.Leaves.{AreRising, all_put, leaf_entry, leaf_entries};
ghost use Rattle.cs_ledger.specs.Session.{Key as Name};
ghost use Rattle.cs_table.specs.Seen.{IsStored, is_under, seen};
ghost use Rattle.cs_check.specs.Leaves.{HasLeaves, HasLeavesBut, AreWaiting, hashes_of, leaves_taken};
ghost use Rattle.cs_check.specs.Root.{table_root as root_of};

use crate::root::record_leaf;
use cs_base::{Key, Memory};
use cs_merkle_kept::{Incremental, Leaf, Steps};
use cs_table::{Record, Table};
use cs_tx::{Digest, Encoded};
use cs_tx_types::key_fits;
use std::alloc::Global;
use std::collections::BTreeMap;
use std::marker::{Brand, Model};
use std::mem;
use std::sync::ledger::{Blank, Ledger};

/// A tree over the leaves, and those that were taken over since it was last joined.
#[derive(Drop)]
pub struct Hashes {
    tree: Incremental,
    waiting: BTreeMap<Key, Leaf>,
}

impl Model for Hashes {
    ghost use Rattle.cs_check.specs.Leaves.{Hashed, LeavesAreHashed, hashes_of};

    ghost Value = { Hashed };

    ghost view = { λ h. record { tree = h.tree; waiting = hashes_of h.waiting.entries } };

    ghost invariant = { λ h. LeavesAreHashed h.tree h.waiting.entries };
}

fn key_bytes(alloc: Global, key: &Key) -> Result<Vec<u8>, Memory>
    ensures { IfOk result (λ bytes. bytes.items ≡ key_encoding key.now) }
{
    key_fits(key);
    key.to_bytes(alloc)
}

// The leaf of a record, under its encoded key.
fn hashed(alloc: Global, key: &Key, row: &Record) -> Result<Leaf, Memory>
    requires { IsStored row.now }
    ensures { IfOk result (λ leaf. leaf_entry leaf ≡ (
      key_encoding key.now,
      leaf_hash (stored_encoding (record { key = key.now; value = row.now })),
    )) }
{
    let bytes = key_bytes(alloc, key)?;
    let leaf = record_leaf(alloc, key, row)?;
    let made = Leaf::new(alloc, bytes.as_slice(), leaf.as_slice())?;
    Ok(made)
}

// Takes over the leaf of a key, where the table knows something of it.
fn take_key(
    alloc: Global,
    waiting: &mut BTreeMap<Key, Leaf>,
    table: &Table,
    key: &Key,
) -> Result<(), Memory>
    requires { AreWaiting waiting.old.entries }
    ensures fits { AreWaiting waiting.new.entries }
    ensures taken { OnOk result ((name : Name) →
        lookup (is_under name) (hashes_of waiting.new.entries)
        ≡ leaves_taken (seen table.now) (key.now ∷ []) (hashes_of waiting.old.entries) name) }
{
    match table.record(key) {
        Some(row) => {
            key_fits(key);
            let leaf = hashed(alloc, key, row)?;
            waiting.insert(*key, leaf)?;
            Ok(())
        }
        None => Ok(()),
    }
}

// Takes over the leaves of the touched keys.
fn take_touched(
    alloc: Global,
    waiting: &mut BTreeMap<Key, Leaf>,
    table: &Table,
) -> Result<(), Memory>
    requires { AreWaiting waiting.old.entries }
    ensures fits { AreWaiting waiting.new.entries }
    ensures taken { OnOk result ((name : Name) →
        lookup (is_under name) (hashes_of waiting.new.entries)
        ≡ leaves_taken (seen table.now) table.now.touched (hashes_of waiting.old.entries) name) }
{
    for key in table.touched() {
        take_key(alloc, waiting, table, key)?;
    }
    Ok(())
}

// Takes over the leaves of all records.
fn take_all(alloc: Global, waiting: &mut BTreeMap<Key, Leaf>, table: &Table) -> Result<(), Memory>
    requires { AreWaiting waiting.old.entries }
    ensures fits { AreWaiting waiting.new.entries }
    ensures taken { OnOk result ((name : Name) →
        lookup (is_under name) (hashes_of waiting.new.entries)
        ≡ leaves_taken (seen table.now) (keys_of table.now.rows) (hashes_of waiting.old.entries) name) }
{
    for (key, _) in table.records() {
        take_key(alloc, waiting, table, key)?;
    }
    Ok(())
}

// The leaves in rising order of their encoded keys.
fn leaves_of(alloc: Global, waiting: BTreeMap<Key, Leaf>) -> Result<Vec<Leaf>, Memory>
    requires { AreWaiting waiting.entries }
    ensures leaves { IfOk result (λ leaves. leaves.items ≡ values_of waiting.entries) }
    ensures rising { IfOk result (λ leaves. AreRising (keys_of (leaf_entries leaves.items))) }
{
    let mut leaves = Vec::new(alloc);
    for (_, leaf) in waiting {
        leaves.push(leaf)?;
    }
    Ok(leaves)
}

// Puts leaves; nobody asks how many nodes that joins.
fn put_counted<L: Ledger>(
    alloc: Global,
    tree: Incremental,
    leaves: Vec<Leaf>,
    blank: Blank,
) -> Result<Incremental, Memory>
    requires rising { AreRising (keys_of (leaf_entries leaves.items)) }
    requires name { blank.name ≡ L.name }
    requires parts { blank.parts ≡ L.parts }
    requires some { 0 < L.parts }
    ensures { IfOk result (λ new. new ≡ all_put tree (leaf_entries leaves.items)) }
{
    let mut tree = tree;
    let mut steps: Steps<L> = Steps::new(blank);
    tree.put_all(alloc, leaves.as_slice(), &mut steps)?;
    Ok(tree)
}

fn joined(
    alloc: Global,
    tree: Incremental,
    waiting: BTreeMap<Key, Leaf>,
) -> Result<Incremental, Memory>
    requires { AreWaiting waiting.entries }
    ensures new { IfOk result
        (λ new. new ≡ all_put tree (leaf_entries (values_of waiting.entries))) }
    ensures rising { IfOk result
        (λ new. AreRising (keys_of (leaf_entries (values_of waiting.entries)))) }
{
    let leaves = leaves_of(alloc, waiting)?;
    put_counted::<Brand>(alloc, tree, leaves, Blank::new(1))
}

impl Hashes {
    /// The leaves of all records of a table. None is joined yet.
    pub fn new(alloc: Global, table: &Table) -> Result<Hashes, Memory>
        ensures { IfOk result (λ hashes. HasLeaves hashes (seen table.now)) }
    {
        let mut waiting = BTreeMap::new(alloc);
        take_all(alloc, &mut waiting, table)?;
        Ok(Hashes {
            tree: Incremental::new(alloc),
            waiting,
        })
    }

    /// Takes over the leaves of the touched keys. It is written so that no other record is encoded or
    /// hashed: no clause counts that.
    pub fn take(&mut self, alloc: Global, table: &Table) -> Result<(), Memory>
        requires { HasLeavesBut table.now.touched self.old (seen table.now) }
        ensures { OnOk result (HasLeaves self.new (seen table.now)) }
    {
        take_touched(alloc, &mut self.waiting, table)
    }

    /// The root over all leaves. It puts those that wait at once, so that no node is joined twice: no
    /// clause counts that.
    pub fn root(&mut self, alloc: Global, table: &Table) -> Result<Digest, Memory>
        requires { HasLeaves self.old (seen table.now) }
        ensures root { IfOk result (λ root. root ≡ root_of table.now.rows) }
        ensures leaves { OnOk result (HasLeaves self.new (seen table.now)) }
    {
        let _records = table.records();
        let tree = mem::replace(&mut self.tree, Incremental::new(alloc));
        let waiting = mem::replace(&mut self.waiting, BTreeMap::new(alloc));
        self.tree = joined(alloc, tree, waiting)?;
        let root = self.tree.root();
        Ok(root)
    }
}

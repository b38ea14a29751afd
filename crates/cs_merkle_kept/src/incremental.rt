//! A tree whose inner hashes are kept, over leaves under keys.
ghost use Rattle.std.specs.Prelude.{◌≡◌, ℕ, ◌+◌, ◌-◌, ◌*◌, ◌^◌, ◌≤◌, ◌↔◌, List, [], IsTrue, IfOk, OnOk, OnErr, Contains, length, map};
ghost use Rattle.std.specs.Map.{keys_of, values_of};
ghost use Rattle.std.specs.BTreeMap.{insert_entry};
ghost use Rattle.cs_merkle.specs.Tree.{leaf_hash, merkle_tree_hash};
ghost use Rattle.cs_merkle_kept.specs.Levels.{hash_over};
ghost use Rattle.cs_merkle_kept.specs.Leaves.{AreRising, all_put, leaf_entries, byte_order};
ghost use Rattle.cs_merkle_kept.specs.Counts.{AreOldKeys, FewJoins, IsFirstNew};

use crate::changes::put_leaves;
use crate::leaf::Leaf;
use crate::levels::raise;
use crate::places::search;
use crate::steps::Steps;
use cs_base::Memory;
use cs_hash::Digest;
use sha2::{Digest as Hasher, Sha256};
use std::alloc::Global;
use std::marker::Model;
use std::mem;
use std::sync::ledger::Ledger;

/// The hashes of leaves under their keys, in rising order of the keys, and those of the inner nodes
/// of the tree over them.
#[derive(Drop)]
pub struct Incremental {
    keys: Vec<Vec<u8>>,
    hashes: Vec<Digest>,
    levels: Vec<Vec<Digest>>,
}

impl Model for Incremental {
    ghost use Rattle.std.specs.Prelude.{zip};
    ghost use Rattle.cs_merkle.specs.Tree.{leaves_of_vectors};
    ghost use Rattle.cs_merkle_kept.specs.Levels.{levels_of};
    ghost use Rattle.cs_merkle_kept.specs.Leaves.{KeyedHashes};
    ghost use Rattle.cs_merkle_kept.specs.Kept.{IsTree};

    ghost Value = { KeyedHashes };

    ghost view = { λ t. zip (leaves_of_vectors t.keys.items) t.hashes.items };

    ghost invariant = { λ t.
        IsTree (leaves_of_vectors t.keys.items) t.hashes.items (levels_of t.levels.items) };
}

impl Incremental {
    /// A tree over no leaf.
    pub fn new(alloc: Global) -> Incremental
        ensures { result ≡ [] }
    {
        Incremental {
            keys: Vec::new(alloc),
            hashes: Vec::new(alloc),
            levels: Vec::new(alloc),
        }
    }

    /// How many leaves there are.
    pub fn len(&self) -> usize
        ensures { result ≡ length self.now }
    {
        self.keys.len()
    }

    /// Whether there is no leaf.
    pub fn is_empty(&self) -> bool
        ensures { IsTrue result ↔ (length self.now ≡ 0) }
    {
        self.len() == 0
    }

    /// The Merkle tree hash of the leaves. It takes no memory, and hashes nothing where there is a
    /// leaf.
    pub fn root(&self) -> Digest
        ensures hashes { result ≡ hash_over (values_of self.now) }
        ensures leaves { (leaves : List (List ℕ)) → values_of self.now ≡ map leaf_hash leaves
            → result ≡ merkle_tree_hash leaves }
        ensures rising { AreRising (keys_of self.now) }
    {
        match self.levels.last() {
            Some(top) => top[0],
            None => match self.hashes.first() {
                Some(hash) => *hash,
                None => Sha256::digest([]),
            },
        }
    }

    /// Sets the leaves of these keys, and joins no node twice. A new key moves every leaf behind
    /// it, an old one none. Where memory runs out no leaf is kept.
    pub fn put_all<L: Ledger>(
        &mut self,
        alloc: Global,
        leaves: &[Leaf],
        steps: &mut Steps<L>,
    ) -> Result<(), Memory>
        requires { AreRising (keys_of (leaf_entries leaves.now)) }
        ensures leaves { OnOk result (self.new ≡ all_put self.old (leaf_entries leaves.now)) }
        ensures none { OnErr result (self.new ≡ []) }
        ensures once { OnOk result (steps.new ≤ steps.old + (length self.new - 1)) }
        ensures few_old { OnOk result ((height : ℕ) → length self.new ≤ 2 ^ height
            → AreOldKeys (keys_of self.old) (keys_of (leaf_entries leaves.now))
            → steps.new ≤ steps.old + length leaves.now * height) }
        ensures few_new { OnOk result ((height before place : ℕ) → length self.new ≤ 2 ^ height
            → IsFirstNew (keys_of self.old) (keys_of self.new) (keys_of (leaf_entries leaves.now))
            before place
            → steps.new ≤ steps.old + (length self.new - place) + (before + 1) * height) }
    {
        let tree = mem::replace(self, Incremental::new(alloc));
        let mut keys = tree.keys;
        let mut hashes = tree.hashes;
        let mut levels = tree.levels;
        let (mut places, first) = put_leaves(alloc, &mut keys, &mut hashes, leaves)?;
        let changed = places.as_mut_slice();
        raise(alloc, hashes.as_slice(), &mut levels, changed, first, steps)?;
        *self = Incremental {
            keys,
            hashes,
            levels,
        };
        Ok(())
    }

    /// Sets the leaf of a key, and tells whether the key is new.
    pub fn put<L: Ledger>(
        &mut self,
        alloc: Global,
        key: &[u8],
        leaf: &[u8],
        steps: &mut Steps<L>,
    ) -> Result<bool, Memory>
        ensures leaves { OnOk result
            (self.new ≡ insert_entry byte_order self.old key.now (leaf_hash leaf.now)) }
        ensures is_new { IfOk result (λ is_new.
            IsTrue is_new ↔ (Contains (keys_of self.old) key.now → ⊥)) }
        ensures joins { IfOk result (λ is_new.
            FewJoins is_new (length self.new) (steps.new - steps.old)) }
    {
        let is_new = search(self.keys.as_slice(), key).is_err();
        let leaf = Leaf::new(alloc, key, leaf)?;
        self.put_all(alloc, &[leaf], steps)?;
        Ok(is_new)
    }
}

//! The chain of the checkpoints of a shard's log.
ghost use Rattle.std.specs.Prelude.{◌≡◌, ◌+◌, ◌*◌, ◌≤◌, ◌<◌, ◌↔◌, ◌/◌, [], ◌∷◌, ◌++◌, length, IfOk, OnOk, IsErrOf};
ghost use Rattle.cs_tx_types.specs.declared.limits.TheConstants.{COVERED, LAST_PLACE};
ghost use Rattle.cs_merkle.specs.Tree.{leaves_of_vectors};
ghost use Rattle.cs_check_rules.specs.Chain.{empty_log, with_slot, made_last, chain_head, head_of, checkpoint_of, cut_slot, kept_of, AtItsLog, IsLeaf, IsProofOf};
ghost use Rattle.cs_check_rules.specs.Shown.{Shows};
ghost use Rattle.cs_check.specs.Kept.{next_behind, cut_first, chain_with_leaf, with_checkpoint};
ghost use Rattle.cs_check.specs.Leaves.{HasLeaves, HasLeavesBut};
ghost use Rattle.cs_check.specs.Root.{table_root as root_of};
ghost use Rattle.cs_table.specs.Seen.{seen};

use crate::covered::Covered;
use crate::hashes::Hashes;
use cs_base::Memory;
use cs_check_rules::{Checkpoint, Digest, KEPT_SLOTS, Proof, checkpoint_head};
use cs_merkle::root;
use cs_table::Table;
use cs_tx_types::COVERED;
use std::alloc::Global;
use std::collections::VecDeque;
use std::marker::Model;
use std::mem;

/// The leaves that a checkpoint covers: one a slot.
const LEAVES: usize = COVERED as usize;

/// How many checkpoints keep their leaves.
const KEPT: usize = (KEPT_SLOTS / COVERED) as usize;

/// Why there is no proof.
#[derive(Clone, Copy, Debug, PartialEq, Eq)]
pub enum ProveError {
    /// No checkpoint covers the slot yet.
    NotYet,
    /// The slot is cut: its leaf isn't kept any more.
    Cut,
    /// There was not enough memory.
    Memory,
}

impl From<Memory> for ProveError {
    ghost use Rattle.std.specs.Prelude.{◌≡◌};
    ghost use Rattle.cs_check.specs.declared.chain.ProveError.TheVariants.{Memory as NoMemory};

    ghost from_gives = { λ _ e. e ≡ NoMemory };

    fn from(_e: Memory) -> ProveError {
        ProveError::Memory
    }
}

/// The checkpoints over a shard's last slots with the leaves of these, the heads of all, and the
/// hashes of the leaves of its records.
#[derive(Drop)]
pub struct Chain {
    shard: u16,
    slots: u64,
    covered: VecDeque<Covered>,
    uncovered: Vec<Vec<u8>>,
    heads: Vec<Digest>,
    hashes: Hashes,
}

impl Model for Chain {
    ghost use Rattle.cs_merkle.specs.Tree.{leaves_of_vectors};
    ghost use Rattle.cs_check.specs.Kept.{kept_by, IsKeptChain};
    ghost use Rattle.cs_check.specs.Leaves.{Chained};

    ghost Value = { Chained };

    ghost view = { λ c. record {
      kept = kept_by c.shard c.slots c.covered.items (leaves_of_vectors c.uncovered.items) c.heads.items;
      hashed = c.hashes;
    } };

    ghost invariant = { λ c. IsKeptChain
        (kept_by c.shard c.slots c.covered.items (leaves_of_vectors c.uncovered.items) c.heads.items) };
}

// The checkpoint over these leaves, behind those that have these heads.
fn next_checkpoint(
    shard: u16,
    heads: &[Digest],
    leaves: &[Vec<u8>],
    table_root: Digest,
) -> Checkpoint
    ensures { result ≡ next_behind shard heads.now (leaves_of_vectors leaves.now) table_root }
{
    let previous = match heads.last() {
        Some(head) => *head,
        None => [0; 32],
    };
    Checkpoint {
        shard,
        number: heads.len() as u64,
        previous,
        leaf_root: root(leaves),
        table_root,
        leaves: COVERED as u16,
    }
}

// The first checkpoint of too many is cut, with its leaves.
fn cut(covered: &mut VecDeque<Covered>)
    ensures { covered.new.items ≡ cut_first covered.old.items }
{
    if covered.len() > KEPT {
        covered.pop_front();
    }
}

impl Chain {
    /// A chain without slots, of the shard that has this table.
    pub fn new(alloc: Global, shard: u16, table: &Table) -> Result<Chain, Memory>
        ensures log { IfOk result (λ chain. chain.kept ≡ kept_of (empty_log shard)) }
        ensures leaves { IfOk result (λ chain. HasLeaves chain.hashed (seen table.now)) }
    {
        let hashes = Hashes::new(alloc, table)?;
        Ok(Chain {
            shard,
            slots: 0,
            covered: VecDeque::new(alloc),
            uncovered: Vec::new(alloc),
            heads: Vec::new(alloc),
            hashes,
        })
    }

    /// How many slots it has, with those that are cut.
    pub fn slots(&self) -> u64
        ensures { result ≡ self.now.kept.slots }
    {
        self.slots
    }

    /// How many checkpoints are made.
    pub fn checkpoints(&self) -> u64
        ensures { AtItsLog self.now.kept (λ log. result ≡ length log.table_roots) }
    {
        self.heads.len() as u64
    }

    // Makes the checkpoint over the leaves that none covers yet and this one.
    fn cover(
        &mut self,
        alloc: Global,
        leaf: Vec<u8>,
        table_root: Digest,
    ) -> Result<Checkpoint, Memory>
        requires leaf { IsLeaf leaf.items }
        requires last { length self.old.kept.uncovered ≡ LAST_PLACE }
        requires slots { COVERED * length self.old.kept.heads + COVERED ≤ self.old.kept.slots }
        ensures checkpoint { IfOk result (λ made. made ≡ next_behind
            self.old.kept.shard self.old.kept.heads
            (self.old.kept.uncovered ++ leaf.items ∷ []) table_root) }
        ensures kept { IfOk result (λ made.
            self.new.kept ≡ with_checkpoint made (chain_with_leaf leaf.items self.old.kept)) }
        ensures hashed { self.new.hashed ≡ self.old.hashed }
    {
        let mut leaves = mem::replace(&mut self.uncovered, Vec::new(alloc));
        leaves.push(leaf)?;
        let heads = self.heads.as_slice();
        let checkpoint = next_checkpoint(self.shard, heads, leaves.as_slice(), table_root);
        self.heads.push(checkpoint_head(&checkpoint))?;
        self.covered.push_back(Covered::new(checkpoint, leaves))?;
        cut(&mut self.covered);
        Ok(checkpoint)
    }

    /// Takes the leaf of the next slot, whose entry was executed on the table last, and takes over
    /// the leaves of the touched keys. Every 16th leaf makes a checkpoint; from the 65th on one is
    /// cut then. After want of memory no leaf is known. It is written so that no other record is
    /// encoded or hashed, and no node joined twice for a checkpoint: no clause counts that.
    pub fn push(
        &mut self,
        alloc: Global,
        leaf: Vec<u8>,
        table: &Table,
    ) -> Result<Option<Checkpoint>, Memory>
        requires leaf { IsLeaf leaf.items }
        requires known { HasLeavesBut table.now.touched self.old.hashed (seen table.now) }
        ensures log { AtItsLog self.old.kept (λ log. OnOk result
            (self.new.kept ≡ kept_of (with_slot leaf.items (root_of table.now.rows) log))) }
        ensures made { AtItsLog self.old.kept (λ log. IfOk result (λ made.
            made ≡ made_last (with_slot leaf.items (root_of table.now.rows) log))) }
        ensures leaves { OnOk result (HasLeaves self.new.hashed (seen table.now)) }
    {
        let slots = match self.slots.checked_add(1) {
            Some(slots) => slots,
            None => return Err(Memory),
        };
        self.hashes.take(alloc, table)?;
        self.slots = slots;
        if self.uncovered.len() < LEAVES - 1 {
            self.uncovered.push(leaf)?;
            return Ok(None);
        }
        let table_root = self.hashes.root(alloc, table)?;
        let checkpoint = self.cover(alloc, leaf, table_root)?;
        Ok(Some(checkpoint))
    }

    /// The head of the checkpoint of a number, where that one is made.
    pub fn head(&self, number: u64) -> Option<Digest>
        ensures { AtItsLog self.now.kept (λ log. result ≡ chain_head log number) }
    {
        match self.heads.get(number as usize) {
            Some(head) => Some(*head),
            None => None,
        }
    }

    /// The leaf of a slot with the checkpoint that covers it, and the path from the one to the
    /// other.
    pub fn prove(&self, alloc: Global, slot: u64) -> Result<Proof, ProveError>
        ensures proof { AtItsLog self.now.kept (λ log. IfOk result (IsProofOf log slot)) }
        // Where the leaf is of that slot, the proof shows it under the checkpoint's head.
        ensures shown { AtItsLog self.now.kept (λ log. IfOk result (λ proof. proof.leaf.slot ≡ slot →
            Shows (head_of (checkpoint_of log (slot / COVERED))) proof)) }
        ensures not_yet { AtItsLog self.now.kept (λ log.
            IsErrOf result ProveError.NotYet ↔ (COVERED * length log.table_roots ≤ slot)) }
        ensures cut { AtItsLog self.now.kept (λ log.
            IsErrOf result ProveError.Cut ↔ (slot < cut_slot log)) }
    {
        let slot = slot as usize;
        let cut = self.heads.len() - self.covered.len();
        let place = match (slot / LEAVES).checked_sub(cut) {
            Some(place) => place,
            None => return Err(ProveError::Cut),
        };
        match self.covered.get(place) {
            Some(covered) => Ok(covered.prove(alloc, slot % LEAVES)?),
            None => Err(ProveError::NotYet),
        }
    }
}

//! The slots that a node executed, and the checkpoints that other members told it.
ghost use Rattle.std.specs.Prelude.{◌≡◌, [], ◌==◌, ◌<◌, ◌^◌, length, position, OnOk, IfOk, IfSome};
ghost use Rattle.cs_base.specs.declared.version.Version.TheVariants.{One};
ghost use Rattle.cs_tx_types.specs.Log.{LeafFits, leaf_encoding, ProofFits};
ghost use Rattle.cs_tx_types.specs.declared.limits.TheConstants.{COVERED};
ghost use Rattle.cs_table.specs.Seen.{seen};
ghost use Rattle.cs_check.specs.Leaves.{HasLeaves, HasLeavesBut};
ghost use Rattle.cs_check_rules.specs.Chain.{empty_log, with_slot, made_last, kept_of, AtItsLog};
ghost use Rattle.cs_check.specs.Root.{keys_in};
ghost use Rattle.cs_check_rules.specs.Root.{root_under};
ghost use Rattle.cs_check_rules.specs.Proofs.{proof_of};
ghost use Rattle.cs_check_rules.specs.Heads.{is_news};
ghost use Rattle.cs_check.specs.Archives.{with_news};

use crate::archive_fitting::digests_fit;
use crate::{Chain, ProveError, root_is_shown};
use cs_base::{Memory, Whole};
use cs_check_rules::{Checkpoint, Leaf, Proof, encode_leaf};
use cs_table::Table;
use cs_tx_types::checkpoint_fits;
use std::alloc::Global;
use std::marker::Model;

/// The chain of a node's checkpoints, and the last checkpoint of each other member that told one,
/// under its index. A shard has 16 members at most, so these are looked up one after the other.
/// Where memory ran out in the midst of a slot, no slot is taken or proved again.
#[derive(Drop)]
pub struct Archive {
    chain: Chain,
    heads: Vec<(u16, Checkpoint)>,
    whole: Whole,
}

impl Model for Archive {
    ghost use Rattle.std.specs.Prelude.{◌≡◌, true};
    ghost use Rattle.cs_check.specs.Archives.{Archived, IsOfLog};

    ghost Value = { Archived };

    ghost view = { λ a. record { kept = a.chain.kept; hashed = a.chain.hashed; heads = a.heads.items } };

    ghost invariant = { λ a. a.whole ≡ true → IsOfLog a.chain.kept };
}

impl Archive {
    /// Nothing was executed on the table of the shard, and nothing told.
    pub fn new(alloc: Global, shard: u16, table: &Table) -> Result<Archive, Memory>
        ensures archive { IfOk result (λ archive. archive
            ≡ record { kept = kept_of (empty_log shard); hashed = archive.hashed; heads = [] }) }
        ensures leaves { IfOk result (λ archive. HasLeaves archive.hashed (seen table.now)) }
    {
        let chain = Chain::new(alloc, shard, table)?;
        Ok(Archive {
            chain,
            heads: Vec::new(alloc),
            whole: Whole::new(),
        })
    }

    /// How many slots were executed.
    pub fn slots(&self) -> u64
        ensures { result ≡ self.now.kept.slots }
    {
        self.chain.slots()
    }

    /// The chain of its slots.
    pub fn chain(&self) -> &Chain
        ensures { result.now.kept ≡ self.now.kept }
    {
        &self.chain
    }

    /// Takes the leaf of the next slot, whose execution left this table, and tells the checkpoint
    /// that it made, if it made one.
    pub fn push(
        &mut self,
        alloc: Global,
        leaf: &Leaf,
        table: &Table,
    ) -> Result<Option<Checkpoint>, Memory>
        requires fits { LeafFits One leaf.now }
        requires next { leaf.now.slot ≡ self.old.kept.slots }
        requires known { HasLeavesBut table.now.touched self.old.hashed (seen table.now) }
        ensures log { let root = root_under (keys_in table.now.rows) (seen table.now) in
            AtItsLog self.old.kept (λ log. OnOk result
            (self.new.kept ≡ kept_of (with_slot (leaf_encoding One leaf.now) root log))) }
        ensures heads { OnOk result (self.new.heads ≡ self.old.heads) }
        ensures made { let root = root_under (keys_in table.now.rows) (seen table.now) in
            AtItsLog self.old.kept (λ log. IfOk result (λ made.
            made ≡ made_last (with_slot (leaf_encoding One leaf.now) root log))) }
        ensures covers { IfOk result (λ made. IfSome made (λ checkpoint. checkpoint.leaves ≡ COVERED)) }
        ensures leaves { OnOk result (HasLeaves self.new.hashed (seen table.now)) }
    {
        self.whole.check()?;
        root_is_shown(table);
        let bytes = encode_leaf(alloc, leaf)?;
        self.whole.begin()?;
        let made = self.chain.push(alloc, bytes, table)?;
        self.whole.end();
        Ok(made)
    }

    /// The proof of a slot that isn't cut, where a checkpoint covers it.
    pub fn prove(&self, alloc: Global, slot: u64) -> Result<Option<Proof>, Memory>
        ensures proof { AtItsLog self.now.kept
            (λ log. IfOk result (λ found. found ≡ proof_of log slot)) }
        ensures fits { slot < 2 ^ 62 → IfOk result (λ found. IfSome found (ProofFits One)) }
    {
        self.whole.check()?;
        match self.chain.prove(alloc, slot) {
            Ok(proof) => {
                checkpoint_fits(&proof.checkpoint);
                digests_fit(proof.path.as_slice());
                Ok(Some(proof))
            }
            Err(ProveError::NotYet | ProveError::Cut) => Ok(None),
            Err(ProveError::Memory) => Err(Memory),
        }
    }

    // Where the checkpoint of a member stands.
    fn place_of(&self, index: u16) -> Option<usize>
        ensures { result ≡ position (λ told. told.0 == index) self.now.heads }
    {
        self.heads.iter().position(|told| told.0 == index)
    }

    /// Keeps a checkpoint that a member told, where its number is above that of the last one, and
    /// answers whether it is.
    pub fn keep(&mut self, index: u16, checkpoint: Checkpoint) -> Result<bool, Memory>
        ensures news { IfOk result (λ news. news ≡ is_news index checkpoint self.old.heads) }
        ensures kept { IfOk result
            (λ news. self.new ≡ with_news news index checkpoint self.old) }
        ensures leaves { self.new.hashed ≡ self.old.hashed }
    {
        match self.place_of(index) {
            Some(place) => {
                let last = &mut self.heads[place];
                if checkpoint.number <= last.1.number {
                    return Ok(false);
                }
                last.1 = checkpoint;
                Ok(true)
            }
            None => {
                self.heads.push((index, checkpoint))?;
                Ok(true)
            }
        }
    }
}

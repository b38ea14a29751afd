//! What a node keeps for checkpoints: the slots that it executed, and the checkpoints of others.
ghost use Rattle.std.specs.Prelude.{◌≡◌, ◌<◌, ◌^◌, IfOk, IfSome, OnOk};
ghost use Rattle.cs_base.specs.declared.version.Version.TheVariants.{One};
ghost use Rattle.cs_tx_types.specs.Log.{LeafFits, ProofFits};
ghost use Rattle.cs_tx_types.specs.declared.limits.TheConstants.{COVERED};
ghost use Rattle.cs_check_rules.specs.Chain.{made_last, AtItsLog};
ghost use Rattle.cs_check_rules.specs.Heads.{is_news};
ghost use Rattle.cs_check_rules.specs.Proofs.{proof_of};
ghost use Rattle.cs_check.specs.Archives.{with_news};
ghost use Rattle.cs_node_state.specs.Bench.{with_leaf};
ghost use Rattle.cs_table.specs.Seen.{seen};
ghost use Rattle.cs_check.specs.Leaves.{HasLeaves};
ghost use Rattle.cs_sbac.specs.Held.{bench_of, KeepsBench, with_archived, with_forgotten};

use crate::sbac::Sbac;
use cs_base::Memory;
use cs_check::Chain;
use cs_check_rules::{Checkpoint, Leaf, Proof};
use std::alloc::Global;

impl Sbac {
    /// How many slots were executed.
    pub fn slots(&self) -> u64
        ensures { result ≡ self.now.archived.kept.slots }
    {
        self.archive.slots()
    }

    /// The chain of the node's checkpoints.
    pub fn chain(&self) -> &Chain
        ensures { result.now.kept ≡ self.now.archived.kept }
    {
        self.archive.chain()
    }

    /// Takes the leaf of the slot that was executed last, and tells the checkpoint that it made, if
    /// it made one.
    pub fn close(&mut self, alloc: Global, leaf: &Leaf) -> Result<Option<Checkpoint>, Memory>
        requires fits { LeafFits One leaf.now }
        requires next { leaf.now.slot ≡ self.old.archived.kept.slots }
        ensures bench { AtItsLog self.old.archived.kept (λ log. OnOk result
            (KeepsBench self.new (with_leaf leaf.now (bench_of log self.old)))) }
        ensures made { AtItsLog self.old.archived.kept (λ log. IfOk result (λ made.
            made ≡ made_last (with_leaf leaf.now (bench_of log self.old)).log)) }
        ensures covers { IfOk result (λ made. IfSome made (λ checkpoint. checkpoint.leaves ≡ COVERED)) }
        ensures leaves { OnOk result
            (HasLeaves self.new.archived.hashed (seen self.new.table)) }
        ensures config { OnOk result (self.new.config ≡ self.old.config) }
        ensures me { OnOk result (self.new.me ≡ self.old.me) }
    {
        self.whole.begin()?;
        let made = self.archive.push(alloc, leaf, &self.table)?;
        self.whole.end();
        Ok(made)
    }

    /// From now on no key of the table is touched, until its record changes. All leaves are those
    /// of the table, as they are where a slot was closed.
    pub fn forget_touched(&mut self)
        requires { HasLeaves self.old.archived.hashed (seen self.old.table) }
        ensures { self.new ≡ with_forgotten self.old }
    {
        self.table.forget_touched();
    }

    /// The proof of a slot that isn't cut, where a checkpoint covers it.
    pub fn prove(&self, alloc: Global, slot: u64) -> Result<Option<Proof>, Memory>
        ensures proof { AtItsLog self.now.archived.kept
            (λ log. IfOk result (λ found. found ≡ proof_of log slot)) }
        ensures fits { slot < 2 ^ 62 → IfOk result (λ found. IfSome found (ProofFits One)) }
    {
        self.archive.prove(alloc, slot)
    }

    /// Keeps a checkpoint that another member told, if it is news, and answers whether it is.
    pub fn keep(&mut self, index: u16, checkpoint: Checkpoint) -> Result<bool, Memory>
        ensures news { IfOk result
            (λ news. news ≡ is_news index checkpoint self.old.archived.heads) }
        ensures kept { IfOk result (λ news. self.new
            ≡ with_archived self.old (with_news news index checkpoint self.old.archived)) }
    {
        self.archive.keep(index, checkpoint)
    }
}

//! A shard as its log makes it, slot by slot.
ghost use Rattle.std.specs.Prelude.{◌≡◌, List, Bool, true, IfOk, OnOk, IsSome, None, is_some};
ghost use Rattle.std.specs.List.{All};
ghost use Rattle.cs_base.specs.declared.config.Config.{Config as AnyConfig};
ghost use Rattle.cs_tx_types.specs.declared.transaction.Tx.{Tx as AnyTx};
ghost use Rattle.cs_base.specs.declared.version.Version.TheVariants.{One};
ghost use Rattle.cs_tx_types.specs.Log.{LeafFits};
ghost use Rattle.cs_tx_types.specs.Session.{ActionFits, session_in};
ghost use Rattle.cs_tx_value.specs.declared.object.Object.{Object as AnyObject};
ghost use Rattle.cs_tx_value.specs.Object.{ObjectFits};
ghost use Rattle.cs_tx.specs.Digest.{digest_of_session};
ghost use Rattle.cs_tx.specs.Sessions.{ledger_session};
ghost use Rattle.cs_tx.specs.Uses.{anchor_of};
ghost use Rattle.cs_check.specs.Root.{keys_in};
ghost use Rattle.cs_check_rules.specs.Chain.{empty_log, made_last, kept_of, AtItsLog};
ghost use Rattle.cs_table.specs.Seen.{seen, forgotten};
ghost use Rattle.cs_check.specs.Leaves.{HasLeaves, HasLeavesBut};
ghost use Rattle.cs_table.specs.Calls.{anchor_in};
ghost use Rattle.cs_table.specs.Effects.{effect_of, ComesTo};
ghost use Rattle.cs_table.specs.Genesis.{twice};
ghost use Rattle.cs_node_state.specs.Setup.{is_fit as fits_in};
ghost use Rattle.cs_node_pool.specs.Deployed.{AtAnyGenesis, AtEverySetup, deployed_setup};
ghost use Rattle.cs_audit_rules.specs.Stands.{start_stand, log_behind_leaf};
ghost use Rattle.cs_audit_rules.specs.Slots.{is_judged as judged_in, is_head};
ghost use Rattle.cs_sbac.specs.Genesis.{keyed_from};
ghost use Rattle.cs_audit.specs.Standing.{IsPlaced, stand_of, entry_seen, acted, StandExecutes, TellsLeaf};

use crate::setting::is_fit;
use cs_audit_rules::Rule;
use cs_base::{Config, Key, Memory};
use cs_check::{Chain, root_is_shown};
use cs_check_rules::{Checkpoint, checkpoint_head, encode_leaf};
use cs_table::{Table, TableError};
use cs_tx::{Action, Digest, Effect, Judge, Leaf, Object};
use std::alloc::Global;

/// What the slots of a shard came to so far, by the same table and chain that nodes use.
#[derive(Drop)]
pub(crate) struct Stand {
    config: Config,
    shard: u16,
    table: Table,
    chain: Chain,
}

// A vote is given on an approved transaction alone.
fn is_judged<J: Judge>(alloc: Global, judge: &J, entry: &Action) -> Result<bool, Memory>
    requires { ActionFits entry.now }
    ensures { (config : AnyConfig) → AtAnyGenesis config (J.is_approved judge.now) (λ setup.
        IfOk result (λ judged. judged ≡ judged_in setup entry.now)) }
{
    match entry {
        Action::Prepare(session) => judge.approves(alloc, &session.tx),
        Action::Decide(..) => Ok(true),
    }
}

// The checkpoint that a slot made has the head that is told under its number.
fn is_head(heads: &[Digest], made: Option<Checkpoint>) -> bool
    ensures { result ≡ is_head heads.now made }
{
    match made {
        Some(checkpoint) => match heads.get(checkpoint.number as usize) {
            Some(head) => checkpoint_head(&checkpoint) == *head,
            None => false,
        },
        None => true,
    }
}

// Carries out an entry on a table in which its session, of this digest, has an anchor.
fn act(alloc: Global, table: &mut Table, entry: &Action, digest: &Digest) -> Result<Effect, Memory>
    requires fits { ActionFits entry.now }
    requires named { digest.now ≡ digest_of_session (session_in entry.now) }
    requires anchored { IsSome
        (anchor_in table.old (ledger_session (λ tx. true) (session_in entry.now))) }
    ensures { (approves : AnyTx → Bool) → IfOk result (λ effect.
        ComesTo (acted table.old (entry_seen approves entry.now))
        table.old table.new (effect_of effect)) }
{
    match entry {
        Action::Prepare(session) => {
            let answer = table.prepare(alloc, session, digest)?;
            Ok(Effect::Voted(answer.vote))
        }
        Action::Decide(vote, session) => table.decide(alloc, session, digest, *vote),
    }
}

impl Stand {
    /// A shard before its first slot. No two of the objects have one key.
    pub(crate) fn new(
        alloc: Global,
        config: Config,
        shard: u16,
        genesis: &[(Key, Object)],
    ) -> Result<Stand, Memory>
        requires fits { All (λ item. ObjectFits item.1) genesis.now }
        requires apart { twice config.shards shard genesis.now ≡ None }
        ensures config { IfOk result (λ s. s.config ≡ config) }
        ensures shard { IfOk result (λ s. s.shard ≡ shard) }
        ensures placed { IfOk result IsPlaced }
        ensures chain { IfOk result (λ s. s.chain.kept ≡ kept_of (empty_log shard)) }
        ensures stand { (objects : List AnyObject) (approves : AnyTx → Bool) →
            genesis.now ≡ keyed_from 0 objects → IfOk result (λ s.
            stand_of (empty_log shard) s ≡ start_stand (deployed_setup config objects approves) shard) }
    {
        match Table::genesis(alloc, config, shard, genesis) {
            Ok(table) => {
                root_is_shown(&table);
                let chain = Chain::new(alloc, shard, &table)?;
                Ok(Stand {
                    config,
                    shard,
                    table,
                    chain,
                })
            }
            Err(TableError::Memory) => Err(Memory),
            Err(TableError::Duplicate(_)) => unreachable!(),
        }
    }

    // Executes an entry whose session, of this digest, is well formed and concerns the shard.
    fn execute(&mut self, alloc: Global, entry: &Action, digest: &Digest) -> Result<Effect, Memory>
        requires placed { IsPlaced self.old }
        requires fits { ActionFits entry.now }
        requires named { digest.now ≡ digest_of_session (session_in entry.now) }
        requires fit { AtEverySetup self.old.config
            (λ setup. fits_in setup self.old.shard (session_in entry.now) ≡ true) }
        requires anchored { is_some
            (anchor_of self.old.config (session_in entry.now) self.old.shard) ≡ true }
        ensures { AtEverySetup self.old.config (λ setup. IfOk result (λ effect.
            StandExecutes setup entry.now self.old self.new effect)) }
    {
        root_is_shown(&self.table);
        let effect = act(alloc, &mut self.table, entry, digest)?;
        root_is_shown(&self.table);
        Ok(effect)
    }

    // Adds a leaf whose entry was executed last.
    fn push(&mut self, alloc: Global, leaf: &Leaf) -> Result<Option<Checkpoint>, Memory>
        requires fits { LeafFits One leaf.now }
        requires leaves { HasLeavesBut
            self.old.table.touched self.old.chain.hashed (seen self.old.table) }
        ensures made { AtItsLog self.old.chain.kept (λ log. IfOk result (λ made. made ≡ made_last
            (log_behind_leaf leaf.now (keys_in self.old.table.rows) (seen self.old.table) log))) }
        ensures chain { AtItsLog self.old.chain.kept (λ log. OnOk result (self.new.chain.kept ≡
            kept_of (log_behind_leaf leaf.now (keys_in self.old.table.rows) (seen self.old.table) log))) }
        ensures leaves { OnOk result
            (HasLeaves self.new.chain.hashed (seen self.old.table)) }
        ensures table { OnOk result (self.new.table ≡ forgotten self.old.table) }
        ensures config { OnOk result (self.new.config ≡ self.old.config) }
        ensures shard { OnOk result (self.new.shard ≡ self.old.shard) }
    {
        root_is_shown(&self.table);
        let bytes = encode_leaf(alloc, leaf)?;
        let made = self.chain.push(alloc, bytes, &self.table)?;
        self.table.forget_touched();
        Ok(made)
    }

    /// Takes the leaf of the next slot, of whose session this is the digest, or tells the first rule
    /// that it breaks. Then the shard isn't used again.
    pub(crate) fn take<J: Judge>(
        &mut self,
        alloc: Global,
        judge: &J,
        heads: &[Digest],
        leaf: &Leaf,
        digest: &Digest,
    ) -> Result<Option<Rule>, Memory>
        requires placed { IsPlaced self.old }
        requires fits { LeafFits One leaf.now }
        requires named { digest.now ≡ digest_of_session (session_in leaf.now.action) }
        ensures { AtItsLog self.old.chain.kept (λ log.
            AtAnyGenesis self.old.config (J.is_approved judge.now) (λ setup.
            IfOk result (TellsLeaf setup log heads.now leaf.now self.old self.new))) }
    {
        if leaf.slot != self.chain.slots() {
            return Ok(Some(Rule::Slot));
        }
        if !is_fit(alloc, &self.config, self.shard, leaf.action.session())? {
            return Ok(Some(Rule::Form));
        }
        if !is_judged(alloc, judge, &leaf.action)? {
            return Ok(Some(Rule::Judge));
        }
        let effect = self.execute(alloc, &leaf.action, digest)?;
        if effect != leaf.result {
            return Ok(Some(Rule::Result));
        }
        let made = self.push(alloc, leaf)?;
        if !is_head(heads, made) {
            return Ok(Some(Rule::Head));
        }
        Ok(None)
    }
}

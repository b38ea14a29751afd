//! The table of a node, its pool, and what it keeps for checkpoints.
ghost use Rattle.std.specs.Prelude.{◌≡◌, [], None, OnOk, IfOk};
ghost use Rattle.cs_base.specs.Version.{version_of};
ghost use Rattle.cs_tx_types.specs.Session.{SessionFits};
ghost use Rattle.cs_tx.specs.Digest.{digest_of_session};
ghost use Rattle.cs_node_state.specs.Pool.{found, is_pooled, pool_changed, with_ballot};
ghost use Rattle.cs_node_state.specs.Admission.{due};
ghost use Rattle.cs_node_pool.specs.Deployed.{AtEverySetup};
ghost use Rattle.cs_node_pool.specs.Fits.{DueFits, SessionsFit};
ghost use Rattle.cs_node_pool.specs.Calls.{counted_in, locked_in};
ghost use Rattle.cs_check_rules.specs.Chain.{empty_log, kept_of};
ghost use Rattle.cs_sbac.specs.Held.{with_pool, IsOfNode, IsFit};
ghost use Rattle.cs_sbac.specs.Calls.{entered_in, pool_entered, pool_entered_with};

use crate::answers::Entered;
use crate::execution::newcomer;
use crate::setting::formed_shards;
use cs_base::{Config, MOST_WAITING, Memory, NodeId, Version, Whole};
use cs_check::Archive;
use cs_node_pool::{Counted, Pool};
use cs_node_state::Ballot;
use cs_table::Table;
use cs_tx::{Digest, Entry, Session, Vote};
use std::alloc::Global;
use std::marker::Model;

/// The table of a node, its pool and its archive. Where memory ran out in the midst of a slot nothing
/// is known of these: no entry is executed on them again.
#[derive(Drop)]
pub struct Sbac {
    pub(crate) config: Config,
    pub(crate) me: NodeId,
    pub(crate) table: Table,
    pub(crate) pool: Pool,
    pub(crate) archive: Archive,
    pub(crate) whole: Whole,
}

impl Model for Sbac {
    ghost use Rattle.std.specs.Coded.{codes};
    ghost use Rattle.cs_tx_value.specs.contracts.value.Value as values;
    ghost use Rattle.cs_base.specs.contracts.config.Config as configs;
    ghost use Rattle.cs_sbac.specs.Held.{Held, IsSoundBench};

    ghost Value = { Held };

    ghost coded = { Prim.hlevel (codes, values.the_row.coded, configs.the_row.coded) };

    ghost view = { λ s. record {
      config = s.config;
      me = s.me;
      table = s.table;
      pool = s.pool.sessions;
      archived = s.archive;
    } };

    ghost invariant = { λ s. IsSoundBench s.whole s.config s.me s.table s.pool s.archive };
}

impl Sbac {
    /// A node's table, with an empty pool and an empty archive.
    pub fn new(alloc: Global, config: Config, me: NodeId, table: Table) -> Result<Self, Memory>
        requires { IsOfNode config me table }
        ensures { IfOk result (λ begun. begun ≡ record {
          config = config;
          me = me;
          table = table;
          pool = [];
          archived = record {
            kept = kept_of (empty_log me.shard);
            hashed = begun.archived.hashed;
            heads = [];
          };
        }) }
    {
        let archive = Archive::new(alloc, me.shard, &table)?;
        Ok(Sbac {
            config,
            me,
            table,
            pool: Pool::new(alloc, config),
            archive,
            whole: Whole::new(),
        })
    }

    /// The configuration.
    pub fn config(&self) -> &Config
        ensures { result.now ≡ self.now.config }
    {
        &self.config
    }

    /// The version of its entries.
    pub fn version(&self) -> Version
        ensures { result ≡ version_of self.now.config.version }
    {
        Version::of(self.config.version)
    }

    /// The name of the node.
    pub fn me(&self) -> NodeId
        ensures { result ≡ self.now.me }
    {
        self.me
    }

    /// The table.
    pub fn table(&self) -> &Table
        ensures { result.now ≡ self.now.table }
    {
        &self.table
    }

    /// Whether the session of a digest is in the pool.
    pub fn pooled(&self, digest: &Digest) -> Result<bool, Memory>
        ensures { IfOk result (λ pooled. pooled ≡ is_pooled digest.now self.now.pool) }
    {
        self.pool.contains(digest)
    }

    /// Brings a fit session, whose digest is given, into the pool, where it waits.
    pub fn enter(
        &mut self,
        alloc: Global,
        session: Session,
        digest: Digest,
    ) -> Result<Entered, Memory>
        requires fits { SessionFits session }
        requires formed { IsFit self.old session }
        requires named { digest ≡ digest_of_session session }
        requires new { found (digest_of_session session) self.old.pool ≡ None }
        ensures answer { IfOk result (λ answer. answer ≡ entered_in self.old.pool) }
        ensures pool { OnOk result (self.new ≡ with_pool self.old
            (pool_entered (digest_of_session session) session self.old.pool)) }
    {
        if self.pool.waiting()? >= MOST_WAITING {
            return Ok(Entered::Full);
        }
        let shards = formed_shards(alloc, &self.config, &session)?;
        self.pool
            .push(digest, newcomer(alloc, session, false), shards)?;
        Ok(Entered::New)
    }

    /// Brings a fit session, whose digest is given, into the pool, where it waits, with a first vote
    /// on it.
    pub fn enter_voted(
        &mut self,
        alloc: Global,
        from: NodeId,
        session: Session,
        digest: Digest,
        vote: Vote,
    ) -> Result<Entered, Memory>
        requires fits { SessionFits session }
        requires formed { IsFit self.old session }
        requires named { digest ≡ digest_of_session session }
        requires new { found (digest_of_session session) self.old.pool ≡ None }
        ensures answer { IfOk result (λ answer. answer ≡ entered_in self.old.pool) }
        ensures pool { OnOk result (self.new ≡ with_pool self.old
            (pool_entered_with (digest_of_session session) session
            (record { sender = from; vote = vote }) self.old.pool)) }
    {
        if self.pool.waiting()? >= MOST_WAITING {
            return Ok(Entered::Full);
        }
        let shards = formed_shards(alloc, &self.config, &session)?;
        self.pool
            .push(digest, newcomer(alloc, session, false), shards)?;
        let ballot = Ballot { sender: from, vote };
        self.pool.count(&digest, ballot)?;
        Ok(Entered::New)
    }

    /// Takes a vote on the session of a digest.
    pub fn vote(&mut self, from: NodeId, digest: &Digest, vote: Vote) -> Result<Counted, Memory>
        ensures answer { IfOk result (λ answer.
            answer ≡ counted_in from (found digest.now self.old.pool)) }
        ensures pool { OnOk result (self.new ≡ with_pool self.old
            (pool_changed digest.now
            (with_ballot (record { sender = from; vote = vote })) self.old.pool)) }
    {
        self.pool.count(digest, Ballot { sender: from, vote })
    }

    /// The sessions that are locked, in the order of the pool.
    pub fn locked(&self, alloc: Global) -> Result<Vec<Session>, Memory>
        ensures sessions { IfOk result (λ sessions. sessions.items ≡ locked_in self.now.pool) }
        ensures fits { IfOk result (λ sessions. SessionsFit sessions.items) }
    {
        self.pool.locked(alloc)
    }

    /// The entry that is due: the decisions on locked sessions that the votes carry, and then votes
    /// on those that wait, as many of these as an entry has room for: in version 1 the first.
    pub fn due(&self, alloc: Global) -> Result<Option<Entry>, Memory>
        ensures entry { AtEverySetup self.now.config (λ setup.
            IfOk result (λ entry. entry ≡ due setup self.now.pool)) }
        ensures fits { IfOk result (DueFits (version_of self.now.config.version)) }
    {
        self.pool.due(alloc)
    }
}

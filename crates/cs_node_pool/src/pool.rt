//! The pool: sessions under their digests, in the order of entering.
ghost use Rattle.std.specs.Prelude.{◌≡◌, ◌↔◌, ◌++◌, ◌∷◌, [], true, IsTrue, IsSome, OnOk, IfOk, IfSome, None, Some, option_copied};
ghost use Rattle.cs_base.specs.Version.{version_of};
ghost use Rattle.cs_tx.specs.Uses.{concerned_shards};
ghost use Rattle.cs_tx.specs.Digest.{digest_of_session};
ghost use Rattle.cs_tx.specs.WellFormed.{IsWellFormed};
ghost use Rattle.cs_tx_types.specs.Session.{SessionFits};
ghost use Rattle.cs_node_state.specs.Pool.{found, is_pooled, without_session, pool_changed, as_locked, with_ballot, waiting_count};
ghost use Rattle.cs_node_state.specs.Admission.{due};
ghost use Rattle.cs_node_pool.specs.Deployed.{AtEverySetup};
ghost use Rattle.cs_node_pool.specs.Fits.{DueFits, SessionsFit};
ghost use Rattle.cs_node_pool.specs.Calls.{counted_in, locked_in, session_under, IsNext};
ghost use Rattle.cs_node_pool.specs.Seats.{IsKnownSession};

use crate::answers::Counted;
use crate::kept::Kept;
use cs_base::{Config, Memory, Whole};
use cs_node_state::{Ballot, Pooled};
use cs_tx::{Digest, Entry, Session};
use std::alloc::Global;
use std::marker::Model;

/// Sessions under their digests, in the order of entering, with the votes on each.
///
/// After a want of memory in the midst of a change nothing is known of it: its calls answer that
/// again.
#[derive(Drop)]
pub struct Pool {
    config: Config,
    kept: Kept,
    whole: Whole,
}

impl Model for Pool {
    ghost use Rattle.std.specs.Prelude.{◌≡◌, true};
    ghost use Rattle.std.specs.Coded.{codes};
    ghost use Rattle.cs_tx_value.specs.contracts.value.Value as values;
    ghost use Rattle.cs_base.specs.contracts.config.Config as configs;
    ghost use Rattle.cs_node_pool.specs.Gathered.{Gathered};
    ghost use Rattle.cs_node_pool.specs.Seats.{SoundSeats, pool_in};

    ghost Value = { Gathered };

    ghost coded = { Prim.hlevel (codes, values.the_row.coded, configs.the_row.coded) };

    ghost view = { λ p. record { config = p.config; sessions = pool_in p.kept } };

    ghost invariant = { λ p. p.whole ≡ true → SoundSeats p.config p.kept };
}

impl Pool {
    /// An empty pool.
    pub fn new(alloc: Global, config: Config) -> Self
        ensures { result ≡ record { config = config; sessions = [] } }
    {
        Pool {
            config,
            kept: Kept::new(alloc),
            whole: Whole::new(),
        }
    }

    /// The configuration.
    pub fn config(&self) -> &Config
        ensures { result.now ≡ self.now.config }
    {
        &self.config
    }

    /// The session of a digest.
    pub fn get(&self, digest: &Digest) -> Result<Option<&Pooled>, Memory>
        ensures { IfOk result (λ pooled.
            option_copied pooled ≡ found digest.now self.now.sessions) }
    {
        self.whole.check()?;
        Ok(self.kept.get(digest))
    }

    /// Whether a session of this digest is there.
    pub fn contains(&self, digest: &Digest) -> Result<bool, Memory>
        ensures { IfOk result (λ there. there ≡ is_pooled digest.now self.now.sessions) }
    {
        let pooled = self.get(digest)?;
        Ok(pooled.is_some())
    }

    /// The number of waiting sessions.
    pub fn waiting(&self) -> Result<usize, Memory>
        ensures { IfOk result (λ waiting. waiting ≡ waiting_count self.now.sessions) }
    {
        self.whole.check()?;
        Ok(self.kept.waiting())
    }

    /// The digest of a session, where it is the next one to be decided or voted on. Nothing is
    /// hashed for it.
    pub fn known(&self, session: &Session) -> Result<Option<Digest>, Memory>
        ensures known { IfOk result (λ found. IfSome found (IsKnownSession self.now.config session.now)) }
        ensures next { AtEverySetup self.now.config (λ setup.
            IfOk result (λ found.
            IsSome found ↔ IsNext setup self.now.sessions session.now)) }
    {
        self.whole.check()?;
        Ok(self.kept.known(session))
    }

    /// Whether exactly this session is there under a digest: then it is well formed, and needn't be
    /// tested again.
    pub fn holds(&self, digest: &Digest, session: &Session) -> Result<bool, Memory>
        ensures held { IfOk result (λ holds. IsTrue holds ↔
            (session_under digest.now self.now.sessions ≡ Some session.now)) }
        ensures formed { IfOk result (λ holds. holds ≡ true →
            IsWellFormed self.now.config session.now) }
    {
        self.whole.check()?;
        Ok(self.kept.holds(digest, session))
    }

    /// Adds a well-formed session at the end under its digest, which concerns these shards.
    pub fn push(&mut self, digest: Digest, pooled: Pooled, shards: Vec<u16>) -> Result<(), Memory>
        requires new { found digest self.old.sessions ≡ None }
        requires formed { IsWellFormed self.old.config pooled.session }
        requires named { digest ≡ digest_of_session pooled.session }
        requires concerned { shards.items ≡ concerned_shards self.old.config pooled.session }
        requires fits { SessionFits pooled.session }
        ensures sessions { OnOk result (self.new.sessions
            ≡ self.old.sessions ++ (digest, pooled) ∷ []) }
        ensures config { self.new.config ≡ self.old.config }
    {
        self.whole.begin()?;
        self.kept.push(&self.config, digest, pooled, shards)?;
        self.whole.end();
        Ok(())
    }

    /// Takes a session out. The others keep their order.
    pub fn remove(&mut self, digest: &Digest) -> Result<(), Memory>
        ensures sessions { OnOk result (self.new.sessions ≡ without_session digest.now self.old.sessions) }
        ensures config { self.new.config ≡ self.old.config }
    {
        self.whole.begin()?;
        self.kept.remove(digest)?;
        self.whole.end();
        Ok(())
    }

    /// Takes a vote on a session.
    pub fn count(&mut self, digest: &Digest, ballot: Ballot) -> Result<Counted, Memory>
        ensures answer { IfOk result (λ answer.
            answer ≡ counted_in ballot.sender (found digest.now self.old.sessions)) }
        ensures sessions { OnOk result (self.new.sessions
            ≡ pool_changed digest.now (with_ballot ballot) self.old.sessions) }
        ensures config { self.new.config ≡ self.old.config }
    {
        self.whole.begin()?;
        let answer = self.kept.count(&self.config, digest, ballot)?;
        self.whole.end();
        Ok(answer)
    }

    /// Marks a session as locked.
    pub fn lock(&mut self, digest: &Digest) -> Result<(), Memory>
        ensures sessions { OnOk result (self.new.sessions
            ≡ pool_changed digest.now as_locked self.old.sessions) }
        ensures config { self.new.config ≡ self.old.config }
    {
        self.whole.begin()?;
        self.kept.lock(&self.config, digest)?;
        self.whole.end();
        Ok(())
    }

    /// Copies of the locked sessions, in the order of the pool.
    pub fn locked(&self, alloc: Global) -> Result<Vec<Session>, Memory>
        ensures sessions { IfOk result (λ sessions. sessions.items ≡ locked_in self.now.sessions) }
        ensures fits { IfOk result (λ sessions. SessionsFit sessions.items) }
    {
        self.whole.check()?;
        self.kept.locked(alloc)
    }

    /// The entry that is due: the decisions on locked sessions, in the order of the pool, and then
    /// votes on those that wait, as many of these as an entry has room for: in version 1 the first.
    pub fn due(&self, alloc: Global) -> Result<Option<Entry>, Memory>
        ensures entry { AtEverySetup self.now.config (λ setup.
            IfOk result (λ entry. entry ≡ due setup self.now.sessions)) }
        ensures fits { IfOk result (DueFits (version_of self.now.config.version)) }
    {
        self.whole.check()?;
        self.kept.due(alloc, &self.config)
    }
}

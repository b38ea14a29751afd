//! What is asked of the table and the pool of a node.
ghost use Rattle.std.specs.Prelude.{◌≡◌, IfOk};
ghost use Rattle.cs_tx_value.specs.Key.{KeyFits};
ghost use Rattle.cs_tx_types.specs.State.{StateFits};
ghost use Rattle.cs_tx_types.specs.Session.{SessionFits};
ghost use Rattle.cs_tx.specs.Digest.{digest_of_session};
ghost use Rattle.cs_node_state.specs.Setup.{is_concerned_shard, concerned, is_fit};
ghost use Rattle.cs_table.specs.Seen.{seen, HoldsFit};
ghost use Rattle.cs_node_state.specs.Asked.{told_at, least_dummy, key_asked};
ghost use Rattle.cs_node_state.specs.Bench.{decision_on, noted};
ghost use Rattle.cs_node_pool.specs.Deployed.{AtEverySetup};
ghost use Rattle.cs_sbac.specs.Held.{IsFit};
ghost use Rattle.cs_sbac.specs.Calls.{accepted_by};

use crate::sbac::Sbac;
use crate::setting::{concerned_shards, formed_shards, is_fit};
use cs_base::{Key, Memory};
use cs_table::Standing;
use cs_tx::{Digest, Encoded, Session, State, Vote, anchor};
use cs_tx_types::{digest_fits, key_fits};
use cs_tx_value::copy_each;
use std::alloc::Global;

fn is_accepted(standing: Standing) -> Option<bool>
    ensures { result ≡ accepted_by standing }
{
    match standing {
        Standing::Accepted => Some(true),
        Standing::Aborted => Some(false),
        Standing::Open => None,
    }
}

fn copy_state(alloc: Global, state: &State) -> Result<State, Memory>
    requires { HoldsFit state.now }
    ensures copied { IfOk result (λ copied. copied ≡ state.now) }
    ensures fits { IfOk result StateFits }
{
    match state {
        State::Unknown => Ok(State::Unknown),
        State::Active(object) => Ok(State::Active(object.copy(alloc)?)),
        State::Locked(object, by) => {
            digest_fits(by);
            Ok(State::Locked(object.copy(alloc)?, *by))
        }
        State::Inactive(by) => {
            digest_fits(by);
            Ok(State::Inactive(*by))
        }
        State::Shared(object, readers) => {
            let object = object.copy(alloc)?;
            Ok(State::Shared(object, copy_each(alloc, readers)?))
        }
    }
}

impl Sbac {
    /// Whether a session is well formed and concerns the shard.
    pub fn is_fit(&self, alloc: Global, session: &Session) -> Result<bool, Memory>
        requires { SessionFits session.now }
        ensures { AtEverySetup self.now.config (λ setup.
            IfOk result (λ fit. fit ≡ is_fit setup self.now.me.shard session.now)) }
    {
        let fit = is_fit(alloc, &self.config, self.me.shard, session, false)?;
        Ok(fit)
    }

    /// The same of a session whose digest is given. One that is in the pool isn't hashed for it.
    pub fn is_fit_named(
        &self,
        alloc: Global,
        session: &Session,
        digest: &Digest,
    ) -> Result<bool, Memory>
        requires fits { SessionFits session.now }
        requires named { digest.now ≡ digest_of_session session.now }
        ensures { AtEverySetup self.now.config (λ setup.
            IfOk result (λ fit. fit ≡ is_fit setup self.now.me.shard session.now)) }
    {
        let known = self.pool.holds(digest, session)?;
        let fit = is_fit(alloc, &self.config, self.me.shard, session, known)?;
        Ok(fit)
    }

    /// The shards that a session concerns, in rising order.
    pub fn concerned(&self, alloc: Global, session: &Session) -> Result<Vec<u16>, Memory>
        requires { SessionFits session.now }
        ensures { AtEverySetup self.now.config (λ setup.
            IfOk result (λ shards. shards.items ≡ concerned setup session.now)) }
    {
        concerned_shards(alloc, &self.config, session, false)
    }

    /// The same of a fit session, which needn't be tested again.
    pub fn concerned_of_fit(&self, alloc: Global, session: &Session) -> Result<Vec<u16>, Memory>
        requires { IsFit self.now session.now }
        ensures { AtEverySetup self.now.config (λ setup.
            IfOk result (λ shards. shards.items ≡ concerned setup session.now)) }
    {
        let shards = formed_shards(alloc, &self.config, session)?;
        Ok(shards)
    }

    /// Whether a fit session concerns a shard.
    pub fn concerns(&self, session: &Session, shard: u16) -> bool
        requires { IsFit self.now session.now }
        ensures { AtEverySetup self.now.config (λ setup. result ≡ is_concerned_shard setup session.now shard) }
    {
        anchor(session, &self.config, shard).is_some()
    }

    /// The vote that is on record on a session, whose digest is given.
    pub fn noted(
        &self,
        alloc: Global,
        session: &Session,
        digest: &Digest,
    ) -> Result<Option<Vote>, Memory>
        requires fits { SessionFits session.now }
        requires named { digest.now ≡ digest_of_session session.now }
        ensures { AtEverySetup self.now.config (λ setup. IfOk result (λ vote.
            vote ≡ noted setup self.now.me.shard (seen self.now.table) session.now)) }
    {
        self.whole.check()?;
        let vote = self.table.recorded(alloc, session, digest)?;
        Ok(vote)
    }

    /// Whether a session, whose digest is given, was accepted, once it is decided here.
    pub fn decided(
        &self,
        alloc: Global,
        session: &Session,
        digest: &Digest,
    ) -> Result<Option<bool>, Memory>
        requires fits { SessionFits session.now }
        requires named { digest.now ≡ digest_of_session session.now }
        ensures { AtEverySetup self.now.config (λ setup. IfOk result (λ answer.
            answer ≡ decision_on setup self.now.me.shard (seen self.now.table) session.now)) }
    {
        self.whole.check()?;
        let standing = self.table.standing(alloc, session, digest)?;
        Ok(is_accepted(standing))
    }

    /// The state of a key.
    pub fn told(&self, alloc: Global, key: &Key) -> Result<State, Memory>
        ensures told { IfOk result (λ state. state ≡ told_at (seen self.now.table) key.now) }
        ensures fits { IfOk result StateFits }
    {
        self.whole.check()?;
        match self.table.record(key) {
            None => Ok(State::Unknown),
            Some(row) => copy_state(alloc, &row.state),
        }
    }

    /// The key that is asked for; where none is named, the active dummy of the least serial, or
    /// the one that is made next.
    pub fn asked(&self, key: Option<Key>) -> Result<Key, Memory>
        ensures key { IfOk result (λ asked.
            asked ≡ key_asked (seen self.now.table) self.now.me.shard key) }
        ensures fits { IfOk result KeyFits }
    {
        match key {
            Some(key) => {
                key_fits(&key);
                Ok(key)
            }
            None => self.least_dummy(),
        }
    }

    fn least_dummy(&self) -> Result<Key, Memory>
        ensures key { IfOk result (λ key.
            key ≡ least_dummy (seen self.now.table) self.now.me.shard) }
        ensures fits { IfOk result KeyFits }
    {
        self.whole.check()?;
        let key = self.table.least_dummy();
        key_fits(&key);
        Ok(key)
    }
}

//! Which entries a node admits, and the execution of an action.
ghost use Rattle.std.specs.Prelude.{◌≡◌, ◌↔◌, IsSome, IfOk, IfSome};
ghost use Rattle.std.specs.List.{AllByRecursion};
ghost use Rattle.cs_tx_types.specs.declared.action.Action.TheVariants.{Prepare, Decide};
ghost use Rattle.cs_tx_types.specs.Session.{SessionFits, ActionFits, session_in};
ghost use Rattle.cs_check_rules.specs.Chain.{Log};
ghost use Rattle.cs_node_state.specs.Admission.{admits_action, admits};
ghost use Rattle.cs_tx.specs.Digest.{digest_of_session};
ghost use Rattle.cs_node_pool.specs.Deployed.{AtEverySetup, AtAnyGenesis};
ghost use Rattle.cs_node_pool.specs.Calls.{IsNext};
ghost use Rattle.cs_node_pool.specs.Seats.{IsKnownSession};
ghost use Rattle.cs_sbac.specs.Calls.{Executes};

use crate::answers::Outcome;
use crate::execution::run;
use crate::sbac::Sbac;
use crate::setting::{concerned_shards, is_fit, is_fit_entry};
use cs_base::Memory;
use cs_check::root_is_shown;
use cs_docket::Docket;
use cs_node_pool::{Pool, is_decided};
use cs_table::Effect;
use cs_tx::{Action, Digest, Entry, Judge, Session, Vote, session_digest};
use std::alloc::Global;

/// The digest of the session of an action, where it comes next in the pool.
fn known_in(pool: &Pool, entry: &Action) -> Result<Option<Digest>, Memory>
    ensures known { IfOk result (λ found.
        IfSome found (IsKnownSession pool.now.config (session_in entry.now))) }
    ensures next { AtEverySetup pool.now.config (λ setup.
        IfOk result (λ found.
        IsSome found ↔ IsNext setup pool.now.sessions (session_in entry.now))) }
{
    match entry {
        Action::Prepare(session) => pool.known(session),
        Action::Decide(_, session) => pool.known(session),
    }
}

/// The digest of a session, which is known or found by hashing.
fn digest_of(alloc: Global, session: &Session, known: Option<Digest>) -> Result<Digest, Memory>
    requires fits { SessionFits session.now }
    requires known { IfSome known (λ digest. digest ≡ digest_of_session session.now) }
    ensures { IfOk result (λ digest. digest ≡ digest_of_session session.now) }
{
    match known {
        Some(digest) => Ok(digest),
        None => session_digest(alloc, session),
    }
}

/// The same of the session of an action.
fn digest_in(alloc: Global, entry: &Action, known: Option<Digest>) -> Result<Digest, Memory>
    requires fits { ActionFits entry.now }
    requires known { IfSome known (λ digest.
        digest ≡ digest_of_session (session_in entry.now)) }
    ensures { IfOk result (λ digest. digest ≡ digest_of_session (session_in entry.now)) }
{
    match entry {
        Action::Prepare(session) => digest_of(alloc, session, known),
        Action::Decide(_, session) => digest_of(alloc, session, known),
    }
}

impl Sbac {
    fn admits_prepare<J: Judge + Drop>(
        &self,
        alloc: Global,
        session: &Session,
        judge: &mut Docket<J>,
    ) -> Result<bool, Memory>
        requires { SessionFits session.now }
        ensures admits { AtAnyGenesis self.now.config (J.is_approved judge.old) (λ setup.
            IfOk result (λ admitted.
            admitted ≡ admits_action setup self.now.me.shard self.now.pool (Prepare session.now))) }
        ensures judge { judge.new ≡ judge.old }
    {
        let known = self.pool.known(session)?;
        let fit = is_fit(alloc, &self.config, self.me.shard, session, known.is_some())?;
        if !fit {
            return Ok(false);
        }
        let approved = judge.approves(alloc, &session.tx)?;
        Ok(approved)
    }

    fn admits_decide(&self, alloc: Global, vote: Vote, session: &Session) -> Result<bool, Memory>
        requires { SessionFits session.now }
        ensures { AtEverySetup self.now.config (λ setup.
            IfOk result (λ admitted.
            admitted ≡ admits_action setup self.now.me.shard self.now.pool (Decide vote session.now))) }
    {
        let known = self.pool.known(session)?;
        let shards = concerned_shards(alloc, &self.config, session, known.is_some())?;
        if !shards.as_slice().contains(&self.me.shard) {
            return Ok(false);
        }
        let digest = digest_of(alloc, session, known)?;
        let pooled = self.pool.get(&digest)?;
        match pooled {
            None => Ok(false),
            Some(pooled) => Ok(is_decided(
                self.config.f,
                shards.as_slice(),
                vote,
                pooled.ballots.as_slice(),
            )),
        }
    }

    /// Whether the node admits an action: a vote on an approved session, or a decision that the
    /// votes taken on a session of the pool carry.
    fn admits_action<J: Judge + Drop>(
        &self,
        alloc: Global,
        action: &Action,
        judge: &mut Docket<J>,
    ) -> Result<bool, Memory>
        requires { ActionFits action.now }
        ensures admits { AtAnyGenesis self.now.config (J.is_approved judge.old) (λ setup.
            IfOk result (λ admitted.
            admitted ≡ admits_action setup self.now.me.shard self.now.pool action.now)) }
        ensures judge { judge.new ≡ judge.old }
    {
        match action {
            Action::Prepare(session) => self.admits_prepare(alloc, session, judge),
            Action::Decide(vote, session) => self.admits_decide(alloc, *vote, session),
        }
    }

    /// Whether the node admits an entry: each of its actions, as the pool is before all of them. The
    /// judge stays the same, but for what is kept of his verdicts.
    pub fn admits<J: Judge + Drop>(
        &self,
        alloc: Global,
        entry: &Entry,
        judge: &mut Docket<J>,
    ) -> Result<bool, Memory>
        requires { AllByRecursion ActionFits entry.now.actions }
        ensures admits { AtAnyGenesis self.now.config (J.is_approved judge.old) (λ setup.
            IfOk result (λ admitted.
            admitted ≡ admits setup self.now.me.shard self.now.pool entry.now)) }
        ensures judge { judge.new ≡ judge.old }
    {
        for action in entry.actions.as_slice() {
            if !self.admits_action(alloc, action, judge)? {
                return Ok(false);
            }
        }
        Ok(true)
    }

    /// Executes an action. A session that was voted on is locked now, and the node's own vote on it
    /// is taken; or it leaves the pool, as does one on which a decision took effect.
    pub fn execute(&mut self, alloc: Global, entry: &Action) -> Result<Outcome, Memory>
        requires { ActionFits entry.now }
        ensures { AtEverySetup self.old.config (λ setup. (log : Log) →
            IfOk result (λ answer. Executes setup log entry.now self.old self.new answer)) }
    {
        self.whole.check()?;
        root_is_shown(&self.table);
        let known = known_in(&self.pool, entry)?;
        let fit = is_fit_entry(alloc, &self.config, self.me.shard, entry, known.is_some())?;
        if !fit {
            return Ok(Outcome {
                effect: Effect::Void,
                voted: None,
            });
        }
        let digest = digest_in(alloc, entry, known)?;
        self.whole.begin()?;
        let outcome = run(
            alloc,
            self.me,
            &mut self.table,
            &mut self.pool,
            entry,
            &digest,
        )?;
        root_is_shown(&self.table);
        self.whole.end();
        Ok(outcome)
    }
}

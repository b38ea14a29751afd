//! The execution of an action on the table and the pool of a node.
ghost use Rattle.std.specs.Prelude.{◌≡◌, Bool, true, Some, IsSome, OnOk, IfOk};
ghost use Rattle.cs_tx_types.specs.declared.transaction.Tx.{Tx};
ghost use Rattle.cs_tx_types.specs.Session.{SessionFits, ActionFits, session_in};
ghost use Rattle.cs_tx.specs.Digest.{digest_of_session};
ghost use Rattle.cs_tx.specs.Sessions.{ledger_session};
ghost use Rattle.cs_tx.specs.WellFormed.{IsWellFormed};
ghost use Rattle.cs_tx.specs.Votes.{vote_of};
ghost use Rattle.cs_table.specs.Calls.{anchor_in, prepare_outcome, decide_outcome};
ghost use Rattle.cs_node_state.specs.Pool.{entering};
ghost use Rattle.cs_node_state.specs.Bench.{own_pool};
ghost use Rattle.cs_sbac.specs.Calls.{placed, left, RunsSession, RunsEntry};

use crate::answers::Outcome;
use crate::setting::formed_shards;
use cs_base::{Memory, NodeId, Sequence};
use cs_node_pool::Pool;
use cs_node_state::{Ballot, Pooled};
use cs_table::{Effect, Preparation, Table};
use cs_tx::{Action, Digest, Encoded, Session, Vote};
use std::alloc::Global;

/// A session as it enters the pool.
pub fn newcomer(alloc: Global, session: Session, locked: bool) -> Pooled
    ensures { result ≡ entering session locked }
{
    Pooled {
        session,
        locked,
        ballots: Sequence::new(alloc),
    }
}

/// What becomes of a session in the pool after the vote on it.
fn place(
    alloc: Global,
    pool: &mut Pool,
    digest: &Digest,
    session: &Session,
    locked: bool,
) -> Result<(), Memory>
    requires fits { SessionFits session.now }
    requires formed { IsWellFormed pool.old.config session.now }
    requires named { digest.now ≡ digest_of_session session.now }
    ensures sessions { OnOk result (pool.new.sessions
        ≡ placed locked digest.now session.now pool.old.sessions) }
    ensures config { pool.new.config ≡ pool.old.config }
{
    if !locked {
        pool.remove(digest)?;
    } else if pool.contains(digest)? {
        pool.lock(digest)?;
    } else {
        let shards = formed_shards(alloc, pool.config(), session)?;
        let session = session.copy(alloc)?;
        pool.push(*digest, newcomer(alloc, session, true), shards)?;
    }
    Ok(())
}

/// The same, with the node's own vote on a session that is locked now.
fn place_voted(
    alloc: Global,
    pool: &mut Pool,
    digest: &Digest,
    session: &Session,
    own: Ballot,
    locked: bool,
) -> Result<(), Memory>
    requires fits { SessionFits session.now }
    requires formed { IsWellFormed pool.old.config session.now }
    requires named { digest.now ≡ digest_of_session session.now }
    ensures sessions { OnOk result (pool.new.sessions
        ≡ own_pool own.sender digest.now (Some (own.vote, locked))
        (placed locked digest.now session.now pool.old.sessions)) }
    ensures config { pool.new.config ≡ pool.old.config }
{
    place(alloc, pool, digest, session, locked)?;
    if locked {
        pool.count(digest, own)?;
    }
    Ok(())
}

fn prepare(
    alloc: Global,
    me: NodeId,
    table: &mut Table,
    pool: &mut Pool,
    session: &Session,
    digest: &Digest,
) -> Result<Outcome, Memory>
    requires fits { SessionFits session.now }
    requires formed { IsWellFormed pool.old.config session.now }
    requires named { digest.now ≡ digest_of_session session.now }
    requires anchored { IsSome (anchor_in table.old (ledger_session (λ tx. true) session.now)) }
    ensures runs { (approves : Tx → Bool) → IfOk result (λ answer.
        let x = ledger_session approves session.now in
        RunsSession me session.now x.digest (prepare_outcome table.old x) (anchor_in table.old x)
        table.old table.new pool.old.sessions pool.new.sessions answer) }
    ensures config { pool.new.config ≡ pool.old.config }
{
    let Preparation { vote, locked } = table.prepare(alloc, session, digest)?;
    let own = Ballot { sender: me, vote };
    place_voted(alloc, pool, digest, session, own, locked)?;
    Ok(Outcome {
        effect: Effect::Voted(vote),
        voted: Some((vote, locked)),
    })
}

/// A session on which a decision took effect leaves the pool.
fn leave(pool: &mut Pool, digest: &Digest, effect: Effect) -> Result<(), Memory>
    ensures sessions { OnOk result (pool.new.sessions ≡ left effect digest.now pool.old.sessions) }
    ensures config { pool.new.config ≡ pool.old.config }
{
    match effect {
        Effect::Accepted | Effect::Aborted => pool.remove(digest),
        Effect::Voted(_) | Effect::Skipped | Effect::Void => Ok(()),
    }
}

fn decide(
    alloc: Global,
    me: NodeId,
    table: &mut Table,
    pool: &mut Pool,
    vote: Vote,
    session: &Session,
    digest: &Digest,
) -> Result<Outcome, Memory>
    requires fits { SessionFits session.now }
    requires named { digest.now ≡ digest_of_session session.now }
    requires anchored { IsSome (anchor_in table.old (ledger_session (λ tx. true) session.now)) }
    ensures runs { (approves : Tx → Bool) → IfOk result (λ answer.
        let x = ledger_session approves session.now in
        RunsSession me session.now x.digest (decide_outcome table.old x (vote_of vote)) (anchor_in table.old x)
        table.old table.new pool.old.sessions pool.new.sessions answer) }
    ensures config { pool.new.config ≡ pool.old.config }
{
    let effect = table.decide(alloc, session, digest, vote)?;
    leave(pool, digest, effect)?;
    Ok(Outcome {
        effect,
        voted: None,
    })
}

/// Executes an action whose session, of this digest, is well formed and has an anchor in the table.
pub fn run(
    alloc: Global,
    me: NodeId,
    table: &mut Table,
    pool: &mut Pool,
    entry: &Action,
    digest: &Digest,
) -> Result<Outcome, Memory>
    requires fits { ActionFits entry.now }
    requires formed { IsWellFormed pool.old.config (session_in entry.now) }
    requires named { digest.now ≡ digest_of_session (session_in entry.now) }
    requires anchored { IsSome
        (anchor_in table.old (ledger_session (λ tx. true) (session_in entry.now))) }
    ensures runs { (approves : Tx → Bool) → IfOk result (λ answer.
        RunsEntry approves me entry.now
        table.old table.new pool.old.sessions pool.new.sessions answer) }
    ensures config { pool.new.config ≡ pool.old.config }
{
    match entry {
        Action::Prepare(session) => prepare(alloc, me, table, pool, session, digest),
        Action::Decide(vote, session) => decide(alloc, me, table, pool, *vote, session, digest),
    }
}

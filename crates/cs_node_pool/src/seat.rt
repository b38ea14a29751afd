//! The seat of a session, and what is done at its place.
ghost use Rattle.std.specs.Prelude.{◌≡◌, ◌↔◌, Some, IsSome, IfSome, OnOk, IfOk, option_copied};
ghost use Rattle.cs_base.specs.declared.config.Config.{Config};
ghost use Rattle.cs_tx.specs.Uses.{concerned_shards};
ghost use Rattle.cs_tx.specs.Digest.{digest_of_session};
ghost use Rattle.cs_tx.specs.WellFormed.{IsWellFormed};
ghost use Rattle.cs_tx_types.specs.Session.{SessionFits};
ghost use Rattle.cs_node_state.specs.Pool.{as_locked, with_ballot};
ghost use Rattle.cs_node_pool.specs.Batches.{action_on};
ghost use Rattle.cs_node_pool.specs.Calls.{counted_in};
ghost use Rattle.cs_node_pool.specs.Seats.{IsKnownSession, IsRight, IsRightIn, pooled_in, session_on_seat, passes, waits, is_due, reseated};

use crate::answers::Counted;
use crate::same::same_session;
use crate::votes::{has_voted, vote_due};
use cs_base::{Config, Memory};
use cs_node_state::{Ballot, Pooled};
use cs_tx::{Action, Digest, Encoded, Session, Vote};
use std::alloc::Global;

/// A well-formed session of the pool, its digest and the shards that it concerns, which take
/// hashing to find, and the decision that is due on it.
#[derive(Drop)]
pub struct Seat {
    pub digest: Digest,
    pub pooled: Pooled,
    pub shards: Vec<u16>,
    pub due: Option<Vote>,
}

impl Seat {
    /// The seat of a session that concerns these shards.
    pub fn new(config: &Config, digest: Digest, pooled: Pooled, shards: Vec<u16>) -> Seat
        requires formed { IsWellFormed config.now pooled.session }
        requires named { digest ≡ digest_of_session pooled.session }
        requires concerned { shards.items ≡ concerned_shards config.now pooled.session }
        requires fits { SessionFits pooled.session }
        ensures pooled { result.pooled ≡ pooled }
        ensures right { IsRight config.now result }
    {
        let due = vote_due(config.f, shards.as_slice(), &pooled);
        Seat {
            digest,
            pooled,
            shards,
            due,
        }
    }
}

/// The digest of a session, where this is its seat.
pub fn known_as(seat: Option<&Seat>, session: &Session) -> Option<Digest>
    ensures known { (config : Config) → IsRightIn config (option_copied seat.entry) →
        IfSome result (IsKnownSession config session.now) }
    ensures same { IsSome result ↔ (session_on_seat (option_copied seat.entry) ≡ Some session.now) }
{
    let Some(seat) = seat else {
        return None;
    };
    if !same_session(&seat.pooled.session, session) {
        return None;
    }
    Some(seat.digest)
}

/// Takes a vote on the session of a place, unless it repeats one of its node.
pub fn take_vote(
    config: &Config,
    place: &mut Option<Seat>,
    ballot: Ballot,
) -> Result<Counted, Memory>
    requires { IsRightIn config.now place.old }
    ensures answer { IfOk result (λ answer.
        answer ≡ counted_in ballot.sender (pooled_in place.old)) }
    ensures place { OnOk result (place.new ≡ reseated config.now.f (with_ballot ballot) place.old) }
{
    let Some(seat) = place else {
        return Ok(Counted::NotPooled);
    };
    if has_voted(seat.pooled.ballots.as_slice(), ballot.sender) {
        return Ok(Counted::Repeat);
    }
    seat.pooled.ballots.push(ballot)?;
    seat.due = vote_due(config.f, seat.shards.as_slice(), &seat.pooled);
    Ok(Counted::Counted)
}

/// Marks the session of a place as locked.
pub fn lock(config: &Config, place: &mut Option<Seat>)
    ensures { place.new ≡ reseated config.now.f as_locked place.old }
{
    if let Some(seat) = place {
        seat.pooled.locked = true;
        seat.due = vote_due(config.f, seat.shards.as_slice(), &seat.pooled);
    }
}

/// Whether a session waits at a place.
pub fn waits(place: &Option<Seat>) -> bool
    ensures { result ≡ passes waits place.now }
{
    match place {
        Some(seat) => !seat.pooled.locked,
        None => false,
    }
}

/// Whether a decision is due at a place.
pub fn is_due(place: &Option<Seat>) -> bool
    ensures { result ≡ passes is_due place.now }
{
    match place {
        Some(seat) => seat.due.is_some(),
        None => false,
    }
}

/// What is due on the session of a seat: the decision on it, or else a vote.
pub fn action_on(alloc: Global, seat: &Seat) -> Result<Action, Memory>
    ensures { IfOk result (λ action. action ≡ action_on seat.now) }
{
    let session = seat.pooled.session.copy(alloc)?;
    match seat.due {
        Some(vote) => Ok(Action::Decide(vote, session)),
        None => Ok(Action::Prepare(session)),
    }
}

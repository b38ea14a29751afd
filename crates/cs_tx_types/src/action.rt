//! What the nodes of a shard execute.
use crate::session::Session;
use crate::vote::Vote;
use cs_base::{Cursor, MOST_ENTRY, Memory, Writer};
use cs_tx_value::{Encoded, FormError};
use std::alloc::Global;

/// What is executed as one: the shard votes on a session, or a vote of all concerned shards takes
/// effect.
#[derive(Drop)]
pub enum Action {
    Prepare(Session),
    Decide(Vote, Session),
}

impl Action {
    ghost use Rattle.std.specs.Prelude.{◌≡◌};
    ghost use Rattle.cs_tx_types.specs.Session.{session_in, ActionFits, SessionFits};

    /// The session that it is about.
    pub fn session(&self) -> &Session
        ensures is { result.now ≡ session_in self.now }
        ensures fits { ActionFits self.now → SessionFits result.now }
    {
        match self {
            Action::Prepare(session) => session,
            Action::Decide(_, session) => session,
        }
    }
}

impl Encoded for Action {
    ghost use Rattle.cs_tx_types.specs.Session.{action_encoding, ActionFits};
    ghost use Rattle.cs_tx_types.specs.Reading.{action_at};
    ghost use Rattle.cs_base.specs.declared.limits.TheConstants.{MOST_ENTRY};
    ghost use Rattle.cs_tx_types.specs.laws.Session.{action_form, action_short};

    ghost encoding = { action_encoding };

    ghost Fits = { ActionFits };

    ghost found_at = { action_at };

    ghost LIMIT = { MOST_ENTRY };

    const LIMIT: usize = MOST_ENTRY;

    #[tactic(auto, unfolding(cs_tx_value::specs::Kinds::kinds_at, cs_base::specs::Fields::pair_at))]
    fn read(alloc: Global, cursor: &mut Cursor<'_>) -> Result<Action, FormError> {
        match cursor.u8()? {
            0 => Ok(Action::Prepare(Session::read(alloc, cursor)?)),
            1 => {
                let vote = Vote::read(alloc, cursor)?;
                let session = Session::read(alloc, cursor)?;
                Ok(Action::Decide(vote, session))
            }
            _ => Err(FormError::BadForm),
        }
    }

    #[tactic(auto, using(cs_base::proofs::Many::behind_map, cs_base::proofs::Many::behind_pair), unfolding(cs_tx_value::specs::Kinds::kinds_at))]
    fn skip(cursor: &mut Cursor<'_>) -> Result<(), FormError> {
        match cursor.u8()? {
            0 => Session::skip(cursor),
            1 => {
                Vote::skip(cursor)?;
                Session::skip(cursor)
            }
            _ => Err(FormError::BadForm),
        }
    }

    fn encode(&self, out: &mut Writer) -> Result<(), Memory> {
        match self {
            Action::Prepare(session) => {
                out.u8(0)?;
                session.encode(out)
            }
            Action::Decide(vote, session) => {
                out.u8(1)?;
                vote.encode(out)?;
                session.encode(out)
            }
        }
    }

    fn fits(&self) -> bool {
        match self {
            Action::Prepare(session) => session.fits(),
            Action::Decide(_, session) => session.fits(),
        }
    }

    fn room(&self, room: usize) -> Option<usize> {
        let room = room.checked_sub(1)?;
        match self {
            Action::Prepare(session) => session.room(room),
            Action::Decide(vote, session) => {
                let room = vote.room(room)?;
                session.room(room)
            }
        }
    }

    fn copy(&self, alloc: Global) -> Result<Action, Memory> {
        match self {
            Action::Prepare(session) => Ok(Action::Prepare(session.copy(alloc)?)),
            Action::Decide(vote, session) => Ok(Action::Decide(*vote, session.copy(alloc)?)),
        }
    }

    ghost form = { action_form };

    ghost short = { λ action fits lt. action_short action fits };
}

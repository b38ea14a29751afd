//! Votes on sessions.
use cs_base::{Cursor, Memory, Writer};
use cs_tx_value::{Encoded, FormError};
use std::alloc::Global;

/// What a shard says of a session.
#[derive(Clone, Copy, Debug, PartialEq, Eq)]
pub enum Vote {
    Abort,
    Commit,
}

impl Encoded for Vote {
    ghost use Rattle.cs_tx_value.specs.laws.Limits.{unlimited};
    ghost use Rattle.cs_tx_types.specs.Session.{vote_encoding};
    ghost use Rattle.cs_tx_types.specs.Reading.{vote_at};
    ghost use Rattle.cs_tx_types.specs.laws.Session.{vote_form};

    ghost encoding = { vote_encoding };

    ghost Fits = { λ _. Unit {0} };

    ghost found_at = { vote_at };

    ghost LIMIT = { 18446744073709551615 };

    const LIMIT: usize = usize::MAX;

    #[tactic(auto, unfolding(cs_tx_value::specs::Kinds::kinds_at))]
    fn read(_alloc: Global, cursor: &mut Cursor<'_>) -> Result<Vote, FormError> {
        match cursor.u8()? {
            0 => Ok(Vote::Abort),
            1 => Ok(Vote::Commit),
            _ => Err(FormError::BadForm),
        }
    }

    #[tactic(auto, unfolding(cs_tx_value::specs::Kinds::kinds_at))]
    fn skip(cursor: &mut Cursor<'_>) -> Result<(), FormError> {
        match cursor.u8()? {
            0 | 1 => Ok(()),
            _ => Err(FormError::BadForm),
        }
    }

    fn encode(&self, out: &mut Writer) -> Result<(), Memory> {
        match self {
            Vote::Abort => out.u8(0),
            Vote::Commit => out.u8(1),
        }
    }

    fn fits(&self) -> bool {
        true
    }

    fn room(&self, room: usize) -> Option<usize> {
        room.checked_sub(1)
    }

    fn copy(&self, _alloc: Global) -> Result<Vote, Memory> {
        Ok(*self)
    }

    ghost form = { vote_form };

    ghost short = { λ vote fits lt. unlimited _ lt };
}

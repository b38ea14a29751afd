//! What the execution of an entry came to.
use crate::vote::Vote;
use cs_base::{Cursor, Memory, Writer};
use cs_tx_value::{Encoded, FormError};
use std::alloc::Global;

/// What the execution of an entry came to.
#[derive(Clone, Copy, Debug, PartialEq, Eq)]
pub enum Effect {
    Voted(Vote),
    Accepted,
    Aborted,
    /// The session of a decision doesn't hold its lock.
    Skipped,
    /// The session isn't well formed, or doesn't concern the shard.
    Void,
}

impl Encoded for Effect {
    ghost use Rattle.cs_tx_value.specs.laws.Limits.{unlimited};
    ghost use Rattle.cs_tx_types.specs.Log.{effect_encoding, effect_at};
    ghost use Rattle.cs_tx_types.specs.laws.Log.{effect_form};

    ghost encoding = { effect_encoding };

    ghost Fits = { λ _. Unit {0} };

    ghost found_at = { effect_at };

    ghost LIMIT = { 18446744073709551615 };

    const LIMIT: usize = usize::MAX;

    #[tactic(auto, unfolding(cs_tx_value::specs::Kinds::kinds_at))]
    fn read(_alloc: Global, cursor: &mut Cursor<'_>) -> Result<Effect, FormError> {
        match cursor.u8()? {
            0 => Ok(Effect::Voted(Vote::Abort)),
            1 => Ok(Effect::Voted(Vote::Commit)),
            2 => Ok(Effect::Accepted),
            3 => Ok(Effect::Aborted),
            4 => Ok(Effect::Skipped),
            5 => Ok(Effect::Void),
            _ => Err(FormError::BadForm),
        }
    }

    #[tactic(auto, unfolding(cs_tx_value::specs::Kinds::kinds_at))]
    fn skip(cursor: &mut Cursor<'_>) -> Result<(), FormError> {
        match cursor.u8()? {
            0 | 1 | 2 | 3 | 4 | 5 => Ok(()),
            _ => Err(FormError::BadForm),
        }
    }

    fn encode(&self, out: &mut Writer) -> Result<(), Memory> {
        match self {
            Effect::Voted(Vote::Abort) => out.u8(0),
            Effect::Voted(Vote::Commit) => out.u8(1),
            Effect::Accepted => out.u8(2),
            Effect::Aborted => out.u8(3),
            Effect::Skipped => out.u8(4),
            Effect::Void => out.u8(5),
        }
    }

    fn fits(&self) -> bool {
        true
    }

    fn room(&self, room: usize) -> Option<usize> {
        room.checked_sub(1)
    }

    fn copy(&self, _alloc: Global) -> Result<Effect, Memory> {
        Ok(*self)
    }

    ghost form = { effect_form };

    ghost short = { λ effect fits lt. unlimited _ lt };
}

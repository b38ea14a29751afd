//! States of records.
use crate::readers::{read_readers, readers_fit, room_readers, skip_readers, write_readers};
use cs_base::{Cursor, Memory, Sequence, Writer};
use cs_tx_value::{Digest, Encoded, FormError, Object, copy_each};
use std::alloc::Global;

/// The state of a key's record. A lock, what consumed an object, and its readers name sessions by
/// their digests. A shared one that fits has 1 to 64 readers, all different, in the order in which
/// they came.
#[derive(Drop)]
pub enum State {
    Unknown,
    Active(Object),
    Locked(Object, Digest),
    Inactive(Digest),
    Shared(Object, Sequence<Digest>),
}

impl Encoded for State {
    ghost use Rattle.cs_tx_value.specs.laws.Limits.{unlimited};
    ghost use Rattle.cs_tx_types.specs.State.{state_encoding, StateFits};
    ghost use Rattle.cs_tx_types.specs.Reading.{state_at};
    ghost use Rattle.cs_tx_types.specs.laws.Session.{state_form};

    ghost encoding = { state_encoding };

    ghost Fits = { StateFits };

    ghost found_at = { state_at };

    ghost LIMIT = { 18446744073709551615 };

    const LIMIT: usize = usize::MAX;

    #[tactic(auto, unfolding(cs_tx_value::specs::Kinds::kinds_at, cs_base::specs::Fields::pair_at))]
    fn read(alloc: Global, cursor: &mut Cursor<'_>) -> Result<State, FormError> {
        match cursor.u8()? {
            0 => Ok(State::Unknown),
            1 => Ok(State::Active(Object::read(alloc, cursor)?)),
            2 => {
                let object = Object::read(alloc, cursor)?;
                let session = Digest::read(alloc, cursor)?;
                Ok(State::Locked(object, session))
            }
            3 => Ok(State::Inactive(Digest::read(alloc, cursor)?)),
            4 => {
                let object = Object::read(alloc, cursor)?;
                let readers = read_readers(alloc, cursor)?;
                Ok(State::Shared(object, readers))
            }
            _ => Err(FormError::BadForm),
        }
    }

    #[tactic(auto, using(cs_base::proofs::Many::behind_map, cs_base::proofs::Many::behind_pair), unfolding(cs_tx_value::specs::Kinds::kinds_at))]
    fn skip(cursor: &mut Cursor<'_>) -> Result<(), FormError> {
        match cursor.u8()? {
            0 => Ok(()),
            1 => Object::skip(cursor),
            2 => {
                Object::skip(cursor)?;
                Digest::skip(cursor)
            }
            3 => Digest::skip(cursor),
            4 => {
                Object::skip(cursor)?;
                skip_readers(cursor)
            }
            _ => Err(FormError::BadForm),
        }
    }

    fn encode(&self, out: &mut Writer) -> Result<(), Memory> {
        match self {
            State::Unknown => out.u8(0),
            State::Active(object) => {
                out.u8(1)?;
                object.encode(out)
            }
            State::Locked(object, session) => {
                out.u8(2)?;
                object.encode(out)?;
                session.encode(out)
            }
            State::Inactive(session) => {
                out.u8(3)?;
                session.encode(out)
            }
            State::Shared(object, readers) => {
                out.u8(4)?;
                object.encode(out)?;
                write_readers(readers, out)
            }
        }
    }

    fn fits(&self) -> bool {
        match self {
            State::Unknown => true,
            State::Active(object) => object.fits(),
            State::Locked(object, session) => object.fits() && session.fits(),
            State::Inactive(session) => session.fits(),
            State::Shared(object, readers) => object.fits() && readers_fit(readers),
        }
    }

    fn room(&self, room: usize) -> Option<usize> {
        let room = room.checked_sub(1)?;
        match self {
            State::Unknown => Some(room),
            State::Active(object) => object.room(room),
            State::Locked(object, session) => {
                let room = object.room(room)?;
                session.room(room)
            }
            State::Inactive(session) => session.room(room),
            State::Shared(object, readers) => {
                let room = object.room(room)?;
                room_readers(readers, room)
            }
        }
    }

    fn copy(&self, alloc: Global) -> Result<State, Memory> {
        match self {
            State::Unknown => Ok(State::Unknown),
            State::Active(object) => Ok(State::Active(object.copy(alloc)?)),
            State::Locked(object, session) => Ok(State::Locked(object.copy(alloc)?, *session)),
            State::Inactive(session) => Ok(State::Inactive(*session)),
            State::Shared(object, readers) => {
                let object = object.copy(alloc)?;
                Ok(State::Shared(object, copy_each(alloc, readers)?))
            }
        }
    }

    ghost form = { state_form };

    ghost short = { λ state fits lt. unlimited _ lt };
}

//! How long bodies are.
ghost use Rattle.cs_tx_value.specs.Reading.{LeavesRoom};
ghost use Rattle.cs_wire_message.specs.Message.{step_encoding, change_encoding, asked_encoding, body_of};

use crate::change::Change;
use crate::message::Message;
use cs_base::{Key, Version};
use cs_tx_types::{Versioned, room_place};
use cs_tx_value::{Digest, Encoded, room_counted};

/// The bytes of a slot.
const SLOT: usize = 8;

/// The bytes of a slot and a view.
const STEP: usize = 10;

/// The bytes of a flag.
const FLAG: usize = 1;

fn room_step(slot: u64, view: u16, digest: &Digest, room: usize) -> Option<usize>
    ensures { LeavesRoom (step_encoding slot view digest.now) room result }
{
    let room = slot.room(room)?;
    let room = view.room(room)?;
    digest.room(room)
}

fn room_change(change: &Change, room: usize) -> Option<usize>
    ensures { LeavesRoom (change_encoding change.now) room result }
{
    let room = match &change.prepared {
        None => room.checked_sub(1)?,
        Some(pair) => {
            let room = room.checked_sub(3)?;
            pair.1.room(room)?
        }
    };
    room_counted(&change.echoed, room)
}

fn room_asked(key: &Option<Key>, room: usize) -> Option<usize>
    ensures { LeavesRoom (asked_encoding key.now) room result }
{
    match key {
        None => Some(room),
        Some(key) => key.room(room),
    }
}

impl Message {
    /// What is left of so much room behind the body, or None where the body is longer.
    pub fn room(&self, room: usize, version: Version) -> Option<usize>
        ensures { LeavesRoom (body_of version self.now) room result }
    {
        match self {
            Message::Submit(session) => session.room(room),
            Message::Propose { entry, .. } => {
                let room = room.checked_sub(STEP)?;
                entry.room(room, version)
            }
            Message::Echo { slot, view, digest } => room_step(*slot, *view, digest, room),
            Message::Confirm { slot, view, digest } => room_step(*slot, *view, digest, room),
            Message::Change { change, .. } => {
                let room = room.checked_sub(STEP)?;
                room_change(change, room)
            }
            Message::Voted { vote, session, .. } => {
                let room = vote.room(room)?;
                let room = room.checked_sub(FLAG)?;
                session.room(room)
            }
            Message::Decided { session, .. } => {
                let room = session.room(room)?;
                room.checked_sub(FLAG)
            }
            Message::Want { slot } => slot.room(room),
            Message::Done { entry, .. } => {
                let room = room.checked_sub(SLOT)?;
                entry.room(room, version)
            }
            Message::Ask(key) => room_asked(key, room),
            Message::Told { key, state } => {
                let room = key.room(room)?;
                state.room(room)
            }
            Message::Head(checkpoint) => checkpoint.room(room, version),
            Message::AskProof { slot, place } => {
                let room = slot.room(room)?;
                room_place(*place, room, version)
            }
            Message::Proof(proof) => proof.room(room, version),
        }
    }
}

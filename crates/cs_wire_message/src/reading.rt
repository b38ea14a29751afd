//! Reading bodies.
ghost use Rattle.std.specs.Prelude.{◌≡◌};
ghost use Rattle.cs_tx_value.specs.Reading.{ReadsValue};
ghost use Rattle.cs_wire_message.specs.Reading.{propose_at, step_at, voted_at, decided_message_at, done_at, asked_place_at, ask_proof_at, told_message_at, message_at};

use crate::kinds::{
    ASK, ASK_PROOF, CHANGE, CONFIRM, DECIDED, DONE, ECHO, HEAD, PROOF, PROPOSE, SUBMIT, TOLD,
    VOTED, WANT,
};
use crate::message::Message;
use crate::rising::read_claim;
use crate::view::{read_flag, read_view};
use cs_base::{Cursor, Key, MOST_ACTIONS, Version};
use cs_tx_types::{Checkpoint, Entry, Proof, Session, State, Versioned, Vote, read_slot};
use cs_tx_value::{Digest, Encoded, FormError};
use std::alloc::Global;

#[tactic(auto, unfolding(crate::specs::Reading::propose_at, cs_base::specs::Fields::pair_at))]
fn read_propose(
    alloc: Global,
    cursor: &mut Cursor<'_>,
    version: Version,
) -> Result<(u64, (u16, Entry)), FormError>
    ensures { ReadsValue result cursor.new (propose_at version cursor.old) }
{
    let slot = read_slot(cursor)?;
    let view = read_view(cursor)?;
    let entry = Entry::read(alloc, cursor, version)?;
    Ok((slot, (view, entry)))
}

#[tactic(auto, unfolding(crate::specs::Reading::step_at, cs_base::specs::Fields::pair_at))]
fn read_step(alloc: Global, cursor: &mut Cursor<'_>) -> Result<(u64, (u16, Digest)), FormError>
    ensures { ReadsValue result cursor.new (step_at cursor.old) }
{
    let slot = read_slot(cursor)?;
    let view = read_view(cursor)?;
    let digest = Digest::read(alloc, cursor)?;
    Ok((slot, (view, digest)))
}

#[tactic(auto, unfolding(crate::specs::Reading::voted_at, cs_base::specs::Fields::pair_at))]
fn read_voted(alloc: Global, cursor: &mut Cursor<'_>) -> Result<(Vote, (bool, Session)), FormError>
    ensures { ReadsValue result cursor.new (voted_at cursor.old) }
{
    let vote = Vote::read(alloc, cursor)?;
    let asks = read_flag(cursor)?;
    let session = Session::read(alloc, cursor)?;
    Ok((vote, (asks, session)))
}

#[tactic(auto, unfolding(crate::specs::Reading::decided_message_at, cs_base::specs::Fields::pair_at))]
fn read_decided(alloc: Global, cursor: &mut Cursor<'_>) -> Result<(Digest, bool), FormError>
    ensures { ReadsValue result cursor.new (decided_message_at cursor.old) }
{
    let session = Digest::read(alloc, cursor)?;
    let accepted = read_flag(cursor)?;
    Ok((session, accepted))
}

#[tactic(auto, unfolding(crate::specs::Reading::done_at, cs_base::specs::Fields::pair_at))]
fn read_done(
    alloc: Global,
    cursor: &mut Cursor<'_>,
    version: Version,
) -> Result<(u64, Entry), FormError>
    ensures { ReadsValue result cursor.new (done_at version cursor.old) }
{
    let slot = read_slot(cursor)?;
    let entry = Entry::read(alloc, cursor, version)?;
    Ok((slot, entry))
}

// The place of an action in a slot: 0, or one of 32.
#[tactic(auto, unfolding(cs_base::specs::Fields::tested_at))]
fn read_asked_place(cursor: &mut Cursor<'_>, version: Version) -> Result<u8, FormError>
    ensures { ReadsValue result cursor.new (asked_place_at version cursor.old) }
{
    match version {
        Version::One => Ok(0),
        Version::Two => {
            let place = cursor.u8()?;
            if place >= MOST_ACTIONS {
                return Err(FormError::BadForm);
            }
            Ok(place)
        }
    }
}

#[tactic(auto, unfolding(crate::specs::Reading::ask_proof_at, cs_base::specs::Fields::pair_at))]
fn read_ask_proof(cursor: &mut Cursor<'_>, version: Version) -> Result<(u64, u8), FormError>
    ensures { ReadsValue result cursor.new (ask_proof_at version cursor.old) }
{
    let slot = read_slot(cursor)?;
    let place = read_asked_place(cursor, version)?;
    Ok((slot, place))
}

#[tactic(auto, unfolding(crate::specs::Reading::told_message_at, cs_base::specs::Fields::pair_at))]
fn read_told(alloc: Global, cursor: &mut Cursor<'_>) -> Result<(Key, State), FormError>
    ensures { ReadsValue result cursor.new (told_message_at cursor.old) }
{
    let key = Key::read(alloc, cursor)?;
    let state = State::read(alloc, cursor)?;
    Ok((key, state))
}

/// The body of a message of this kind, but for one of no byte.
pub fn read_message(
    alloc: Global,
    cursor: &mut Cursor<'_>,
    kind: u8,
    version: Version,
) -> Result<Message, FormError>
    ensures { ReadsValue result cursor.new (message_at version kind cursor.old) }
{
    match kind {
        SUBMIT => Ok(Message::Submit(Session::read(alloc, cursor)?)),
        PROPOSE => {
            let (slot, (view, entry)) = read_propose(alloc, cursor, version)?;
            Ok(Message::Propose { slot, view, entry })
        }
        ECHO => {
            let (slot, (view, digest)) = read_step(alloc, cursor)?;
            Ok(Message::Echo { slot, view, digest })
        }
        CONFIRM => {
            let (slot, (view, digest)) = read_step(alloc, cursor)?;
            Ok(Message::Confirm { slot, view, digest })
        }
        CHANGE => {
            let (slot, (view, change)) = read_claim(alloc, cursor)?;
            Ok(Message::Change { slot, view, change })
        }
        VOTED => {
            let (vote, (asks, session)) = read_voted(alloc, cursor)?;
            Ok(Message::Voted {
                vote,
                asks,
                session,
            })
        }
        DECIDED => {
            let (session, accepted) = read_decided(alloc, cursor)?;
            Ok(Message::Decided { session, accepted })
        }
        WANT => Ok(Message::Want {
            slot: read_slot(cursor)?,
        }),
        DONE => {
            let (slot, entry) = read_done(alloc, cursor, version)?;
            Ok(Message::Done { slot, entry })
        }
        ASK => Ok(Message::Ask(Some(Key::read(alloc, cursor)?))),
        TOLD => {
            let (key, state) = read_told(alloc, cursor)?;
            Ok(Message::Told { key, state })
        }
        HEAD => Ok(Message::Head(Checkpoint::read(alloc, cursor, version)?)),
        ASK_PROOF => {
            let (slot, place) = read_ask_proof(cursor, version)?;
            Ok(Message::AskProof { slot, place })
        }
        PROOF => Ok(Message::Proof(Proof::read(alloc, cursor, version)?)),
        _ => Err(FormError::BadForm),
    }
}

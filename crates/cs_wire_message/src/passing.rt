//! Passing over bodies, without making the messages.
ghost use Rattle.std.specs.Prelude.{◌≡◌};
ghost use Rattle.cs_tx_value.specs.Reading.{Passes};
ghost use Rattle.cs_wire_message.specs.Reading.{propose_at, step_at, voted_at, decided_message_at, done_at, asked_place_at, ask_proof_at, told_message_at, message_at};

use crate::kinds::{
    ASK, ASK_PROOF, CHANGE, CONFIRM, DECIDED, DONE, ECHO, HEAD, PROOF, PROPOSE, SUBMIT, TOLD,
    VOTED, WANT,
};
use crate::rising::skip_claim;
use crate::view::{skip_flag, skip_view};
use cs_base::{Cursor, Key, MOST_ACTIONS, Version};
use cs_tx_types::{Checkpoint, Entry, Proof, Session, State, Versioned, Vote, skip_slot};
use cs_tx_value::{Digest, Encoded, FormError};

#[tactic(auto, unfolding(crate::specs::Reading::propose_at, cs_base::specs::Fields::pair_at))]
fn skip_propose(cursor: &mut Cursor<'_>, version: Version) -> Result<(), FormError>
    ensures { Passes result cursor.new (propose_at version cursor.old) }
{
    skip_slot(cursor)?;
    skip_view(cursor)?;
    Entry::skip(cursor, version)
}

#[tactic(auto, unfolding(crate::specs::Reading::step_at, cs_base::specs::Fields::pair_at))]
fn skip_step(cursor: &mut Cursor<'_>) -> Result<(), FormError>
    ensures { Passes result cursor.new (step_at cursor.old) }
{
    skip_slot(cursor)?;
    skip_view(cursor)?;
    Digest::skip(cursor)
}

#[tactic(auto, unfolding(crate::specs::Reading::voted_at, cs_base::specs::Fields::pair_at))]
fn skip_voted(cursor: &mut Cursor<'_>) -> Result<(), FormError>
    ensures { Passes result cursor.new (voted_at cursor.old) }
{
    Vote::skip(cursor)?;
    skip_flag(cursor)?;
    Session::skip(cursor)
}

#[tactic(auto, unfolding(crate::specs::Reading::decided_message_at, cs_base::specs::Fields::pair_at))]
fn skip_decided(cursor: &mut Cursor<'_>) -> Result<(), FormError>
    ensures { Passes result cursor.new (decided_message_at cursor.old) }
{
    Digest::skip(cursor)?;
    skip_flag(cursor)
}

#[tactic(auto, unfolding(crate::specs::Reading::done_at, cs_base::specs::Fields::pair_at))]
fn skip_done(cursor: &mut Cursor<'_>, version: Version) -> Result<(), FormError>
    ensures { Passes result cursor.new (done_at version cursor.old) }
{
    skip_slot(cursor)?;
    Entry::skip(cursor, version)
}

#[tactic(auto, unfolding(cs_base::specs::Fields::tested_at))]
fn skip_asked_place(cursor: &mut Cursor<'_>, version: Version) -> Result<(), FormError>
    ensures { Passes result cursor.new (asked_place_at version cursor.old) }
{
    match version {
        Version::One => Ok(()),
        Version::Two => {
            if cursor.u8()? >= MOST_ACTIONS {
                return Err(FormError::BadForm);
            }
            Ok(())
        }
    }
}

#[tactic(auto, unfolding(crate::specs::Reading::ask_proof_at, cs_base::specs::Fields::pair_at))]
fn skip_ask_proof(cursor: &mut Cursor<'_>, version: Version) -> Result<(), FormError>
    ensures { Passes result cursor.new (ask_proof_at version cursor.old) }
{
    skip_slot(cursor)?;
    skip_asked_place(cursor, version)
}

#[tactic(auto, unfolding(crate::specs::Reading::told_message_at, cs_base::specs::Fields::pair_at))]
fn skip_told(cursor: &mut Cursor<'_>) -> Result<(), FormError>
    ensures { Passes result cursor.new (told_message_at cursor.old) }
{
    Key::skip(cursor)?;
    State::skip(cursor)
}

/// Passes over the body of a message of this kind, but for one of no byte.
#[tactic(auto, using(cs_base::proofs::Many::behind_map))]
pub fn skip_message(cursor: &mut Cursor<'_>, kind: u8, version: Version) -> Result<(), FormError>
    ensures { Passes result cursor.new (message_at version kind cursor.old) }
{
    match kind {
        SUBMIT => Session::skip(cursor),
        PROPOSE => skip_propose(cursor, version),
        ECHO => skip_step(cursor),
        CONFIRM => skip_step(cursor),
        CHANGE => skip_claim(cursor),
        VOTED => skip_voted(cursor),
        DECIDED => skip_decided(cursor),
        WANT => skip_slot(cursor),
        DONE => skip_done(cursor, version),
        ASK => Key::skip(cursor),
        TOLD => skip_told(cursor),
        HEAD => Checkpoint::skip(cursor, version),
        ASK_PROOF => skip_ask_proof(cursor, version),
        PROOF => Proof::skip(cursor, version),
        _ => Err(FormError::BadForm),
    }
}

//! Whole bodies.
ghost use Rattle.std.specs.Prelude.{◌≡◌, ◌≤◌, ◌↔◌, length, Some, IsTrue, IfOk, is_some};
ghost use Rattle.cs_base.specs.declared.limits.TheConstants.{MOST_BODY};
ghost use Rattle.cs_base.specs.declared.version.Version.{Version as Edition};
ghost use Rattle.cs_base.specs.Fields.{whole_at};
ghost use Rattle.cs_wire_message.specs.Reading.{message_at};
ghost use Rattle.cs_tx_value.specs.Reading.{GivesAll, AnswersValue};
ghost use Rattle.cs_wire_message.specs.declared.message.Message.{Message};
ghost use Rattle.cs_wire_message.specs.Message.{body_of, MessageFits};
ghost use Rattle.cs_wire_message.specs.Body.{Has, IsBody, message_whole};

use crate::kinds::ASK;
use crate::message::Message;
use crate::passing::skip_message;
use crate::reading::read_message;
use cs_base::{Cursor, Version};
use cs_tx_value::FormError;
use std::alloc::Global;

// Asking for a dummy has a body of no byte.
fn passes(kind: u8, body: &[u8], version: Version) -> bool
    ensures { result ≡ is_some (message_whole version kind body.now) }
{
    if kind == ASK && body.is_empty() {
        return true;
    }
    let mut cursor = Cursor::new(body);
    match skip_message(&mut cursor, kind, version) {
        Ok(()) => cursor.len() == 0,
        Err(_) => false,
    }
}

fn read_all(alloc: Global, kind: u8, body: &[u8], version: Version) -> Result<Message, FormError>
    ensures { GivesAll result (whole_at (message_at version kind) body.now) }
{
    let mut cursor = Cursor::new(body);
    let message = read_message(alloc, &mut cursor, kind, version)?;
    if cursor.len() != 0 {
        return Err(FormError::BadForm);
    }
    Ok(message)
}

fn read_whole(alloc: Global, kind: u8, body: &[u8], version: Version) -> Result<Message, FormError>
    ensures { GivesAll result (message_whole version kind body.now) }
{
    if kind == ASK && body.is_empty() {
        return Ok(Message::Ask(None));
    }
    read_all(alloc, kind, body, version)
}

/// Whether the bytes are the body of a message of this kind. It takes no memory.
pub fn has_form(kind: u8, body: &[u8], version: Version) -> bool
    ensures { IsTrue result ↔ IsBody version kind body.now }
{
    passes(kind, body, version)
}

/// The message of this kind that has this body.
pub fn message_in(
    alloc: Global,
    kind: u8,
    body: &[u8],
    version: Version,
) -> Result<Message, FormError>
    ensures found { IfOk result (λ message. Has version kind body.now message) }
    ensures only { (message : Message) → Has version kind body.now message
        → AnswersValue result message }
{
    read_whole(alloc, kind, body, version)
}

/// A datagram has room for the body of each message that fits.
#[tactic(auto, using(crate::proofs::Short::body_short))]
pub fn bodies_are_short()
    ensures { (version : Edition) (message : Message) → MessageFits version message
        → length (body_of version message) ≤ MOST_BODY }
{}

//! Writing bodies.
ghost use Rattle.std.specs.Prelude.{◌≡◌, ◌++◌, ◌<◌, ◌≤◌, ◌^◌, ◌∷◌, length, IfOk, OnOk, OnErr};
ghost use Rattle.cs_base.specs.declared.limits.TheConstants.{MOST_BODY};
ghost use Rattle.cs_tx_value.specs.Object.{DigestFits};
ghost use Rattle.cs_tx_value.specs.Reading.{Begins};
ghost use Rattle.cs_wire_message.specs.Message.{flag_encoding, step_encoding, prepared_encoding, PairFits, change_encoding, ChangeFits, asked_encoding, AskedKeyFits, body_of, MessageFits};

use crate::change::Change;
use crate::message::Message;
use cs_base::{Key, MOST_BODY, Memory, Version, Writer};
use cs_tx_types::{Versioned, write_place};
use cs_tx_value::{Digest, Encoded, write_counted};
use std::alloc::Global;

fn write_flag(flag: bool, out: &mut Writer) -> Result<(), Memory>
    ensures ok { OnOk result (out.new ≡ out.old ++ flag_encoding flag) }
    ensures err { OnErr result (Begins out.new out.old) }
{
    out.u8(u8::from(flag))
}

fn write_step(slot: u64, view: u16, digest: &Digest, out: &mut Writer) -> Result<(), Memory>
    requires { DigestFits digest.now }
    ensures ok { OnOk result (out.new ≡ out.old ++ step_encoding slot view digest.now) }
    ensures err { OnErr result (Begins out.new out.old) }
{
    slot.encode(out)?;
    view.encode(out)?;
    digest.encode(out)
}

fn write_prepared(prepared: &Option<(u16, Digest)>, out: &mut Writer) -> Result<(), Memory>
    requires { PairFits prepared.now }
    ensures ok { OnOk result (out.new ≡ out.old ++ prepared_encoding prepared.now) }
    ensures err { OnErr result (Begins out.new out.old) }
{
    match prepared {
        None => out.u8(0),
        Some(pair) => {
            out.u8(1)?;
            pair.0.encode(out)?;
            pair.1.encode(out)
        }
    }
}

#[tactic(auto, using(crate::proofs::Risen::written))]
fn write_change(view: u16, change: &Change, out: &mut Writer) -> Result<(), Memory>
    requires { ChangeFits view change.now }
    ensures ok { OnOk result (out.new ≡ out.old ++ change_encoding change.now) }
    ensures err { OnErr result (Begins out.new out.old) }
{
    write_prepared(&change.prepared, out)?;
    write_counted(&change.echoed, out)
}

fn write_asked(key: &Option<Key>, out: &mut Writer) -> Result<(), Memory>
    requires { AskedKeyFits key.now }
    ensures ok { OnOk result (out.new ≡ out.old ++ asked_encoding key.now) }
    ensures err { OnErr result (Begins out.new out.old) }
{
    match key {
        None => Ok(()),
        Some(key) => key.encode(out),
    }
}

/// Appends the body of a message.
pub fn write_body(message: &Message, out: &mut Writer, version: Version) -> Result<(), Memory>
    requires { MessageFits version message.now }
    ensures ok { OnOk result (out.new ≡ out.old ++ body_of version message.now) }
    ensures err { OnErr result (Begins out.new out.old) }
{
    match message {
        Message::Submit(session) => session.encode(out),
        Message::Propose { slot, view, entry } => {
            slot.encode(out)?;
            view.encode(out)?;
            entry.write(out, version)
        }
        Message::Echo { slot, view, digest } => write_step(*slot, *view, digest, out),
        Message::Confirm { slot, view, digest } => write_step(*slot, *view, digest, out),
        Message::Change { slot, view, change } => {
            slot.encode(out)?;
            view.encode(out)?;
            write_change(*view, change, out)
        }
        Message::Voted {
            vote,
            asks,
            session,
        } => {
            vote.encode(out)?;
            write_flag(*asks, out)?;
            session.encode(out)
        }
        Message::Decided { session, accepted } => {
            session.encode(out)?;
            write_flag(*accepted, out)
        }
        Message::Want { slot } => slot.encode(out),
        Message::Done { slot, entry } => {
            slot.encode(out)?;
            entry.write(out, version)
        }
        Message::Ask(key) => write_asked(key, out),
        Message::Told { key, state } => {
            key.encode(out)?;
            state.encode(out)
        }
        Message::Head(checkpoint) => checkpoint.write(out, version),
        Message::AskProof { slot, place } => {
            slot.encode(out)?;
            write_place(*place, out, version)
        }
        Message::Proof(proof) => proof.write(out, version),
    }
}

/// The body of a message. It takes its room at once.
#[tactic(auto, using(crate::proofs::Short::body_short))]
pub fn body_of(alloc: Global, message: &Message, version: Version) -> Result<Vec<u8>, Memory>
    requires { MessageFits version message.now }
    ensures is { IfOk result (λ body. body.items ≡ body_of version message.now) }
    ensures short { IfOk result (λ body. length body.items ≤ MOST_BODY) }
{
    let left = message.room(MOST_BODY, version).unwrap_or(0);
    let mut out = Writer::with_room(alloc, MOST_BODY - left)?;
    write_body(message, &mut out, version)?;
    Ok(out.into_bytes())
}

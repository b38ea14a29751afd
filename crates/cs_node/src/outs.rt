//! What an event has made, with the datagrams that go out.
ghost use Rattle.std.specs.Prelude.{◌≡◌, ◌≤◌, ◌++◌, ◌∷◌, [], length, IfOk, OnOk, IsSome};
ghost use Rattle.cs_base.specs.declared.limits.TheConstants.{MOST_BODY};
ghost use Rattle.cs_base.specs.declared.config.Config.{Config};
ghost use Rattle.cs_base.specs.declared.version.Version.TheVariants.{One};
ghost use Rattle.cs_wire_message.specs.Message.{MessageFits};
ghost use Rattle.cs_wire.specs.Keys.{row_of};
ghost use Rattle.cs_node_rules.specs.Net.{Net};
ghost use Rattle.cs_node.specs.Notes.{NotesFit, AllSaidFit, AllReached, to_each, spoken, outs_for};
ghost use Rattle.cs_node.specs.Speaking.{Speaks};

use crate::draft::{Draft, Note, Said};
use cs_base::{Memory, NodeId, Sequence, Version};
use cs_wire::{Keys, Out, SealError, seal_with};
use cs_wire_message::{Message, body_of};
use std::alloc::Global;

/// What an input made, the oldest first: what goes out, and what is told.
#[derive(Drop)]
pub struct Made {
    pub outs: Sequence<Out>,
    pub notes: Sequence<Note>,
}

// Seals a body for one. A peer without a key gets nothing.
fn add_out(
    alloc: Global,
    keys: &Keys,
    to: NodeId,
    kind: u8,
    body: &[u8],
    outs: &mut Sequence<Out>,
) -> Result<(), Memory>
    requires { length body.now ≤ MOST_BODY }
    ensures { (config : Config) (net : Net) →
        Speaks config net keys.now → IsSome (row_of to keys.now) →
        let bytes = net.datagram keys.now.me to kind body.now in
        OnOk result (outs.new ≡ outs.old ++ record { to = to; bytes = bytes } ∷ []) }
{
    let mut bytes = Vec::new(alloc);
    match seal_with(alloc, keys, to, kind, body, &mut bytes) {
        Ok(()) => {
            outs.push(Out {
                to,
                bytes: Sequence::from_vec(bytes),
            })?;
            Ok(())
        }
        Err(SealError::NoKey) => Ok(()),
        Err(SealError::Memory) => Err(Memory),
    }
}

// Writes the body of a message once, and seals it for each of these.
fn add_outs(
    alloc: Global,
    keys: &Keys,
    to: &[NodeId],
    message: &Message,
    outs: &mut Sequence<Out>,
) -> Result<(), Memory>
    requires { MessageFits One message.now }
    ensures { (config : Config) (net : Net) → Speaks config net keys.now →
        let each = to_each to.now message.now in
        AllReached keys.now each →
        OnOk result (outs.new ≡ outs.old ++ outs_for net keys.now.me each) }
{
    let body = body_of(alloc, message, Version::One)?;
    for i in 0..to.len() {
        add_out(alloc, keys, to[i], message.kind(), &body, outs)?;
    }
    Ok(())
}

fn seal_each(alloc: Global, keys: &Keys, said: &[Said]) -> Result<Sequence<Out>, Memory>
    requires { AllSaidFit said.now }
    ensures { (config : Config) (net : Net) →
        Speaks config net keys.now → AllReached keys.now (spoken said.now) →
        IfOk result (λ outs. outs ≡ outs_for net keys.now.me (spoken said.now)) }
{
    let mut outs = Sequence::new(alloc);
    for i in 0..said.len() {
        let one = &said[i];
        add_outs(alloc, keys, one.to.as_slice(), &one.message, &mut outs)?;
    }
    Ok(outs)
}

/// Seals what an event says.
pub fn seal_draft(alloc: Global, keys: &Keys, draft: Draft) -> Result<Made, Memory>
    ensures notes { IfOk result (λ made. made.notes ≡ draft.notes) }
    ensures fits { IfOk result (λ made. NotesFit made.notes) }
    ensures outs { (config : Config) (net : Net) →
        Speaks config net keys.now → AllReached keys.now (spoken draft.said) →
        IfOk result (λ made. made.outs ≡ outs_for net keys.now.me (spoken draft.said)) }
{
    let outs = seal_each(alloc, keys, draft.said.as_slice())?;
    Ok(Made {
        outs,
        notes: draft.notes,
    })
}

//! What clients ask.
ghost use Rattle.std.specs.Prelude.{OnOk, Bool};
ghost use Rattle.cs_tx_types.specs.declared.transaction.Tx.{Tx};
ghost use Rattle.cs_wire_message.specs.Message.{AskedKeyFits, IsSlot};
ghost use Rattle.cs_node_rules.specs.Signs.{ask_signs, ask_proof_signs};
ghost use Rattle.cs_node.specs.Signing.{Does};

use crate::draft::Draft;
use cs_base::{Key, Memory, NodeId, shard_of};
use cs_node_rules::Cause;
use cs_sbac::Sbac;
use cs_wire_message::Message;
use std::alloc::Global;

/// A client asks for the state of a key, or for a dummy that it may use.
pub fn ask(
    alloc: Global,
    sbac: &Sbac,
    draft: &mut Draft,
    sender: NodeId,
    asked: Option<Key>,
) -> Result<(), Memory>
    requires { AskedKeyFits asked }
    ensures { (approves : Tx → Bool) →
        Does approves sbac.now sbac.now draft.old draft.new result
        (λ setup b. ask_signs setup sbac.now.me.shard b sender asked) }
{
    if !sender.is_client() {
        return draft.drop_it(Cause::Role);
    }
    let key = sbac.asked(asked)?;
    if shard_of(sbac.config(), &key) != sbac.me().shard {
        return draft.drop_it(Cause::Mine);
    }
    let state = sbac.told(alloc, &key)?;
    draft.say(alloc, sender, Message::Told { key, state })
}

/// A client asks for the proof of a slot.
pub fn ask_proof(
    alloc: Global,
    sbac: &Sbac,
    draft: &mut Draft,
    sender: NodeId,
    slot: u64,
) -> Result<(), Memory>
    requires { IsSlot slot }
    ensures { (approves : Tx → Bool) →
        Does approves sbac.now sbac.now draft.old draft.new result
        (λ setup b. ask_proof_signs b sender slot) }
{
    if !sender.is_client() {
        return draft.drop_it(Cause::Role);
    }
    match sbac.prove(alloc, slot)? {
        Some(proof) => draft.say(alloc, sender, Message::Proof(proof)),
        None => draft.drop_it(Cause::NoProof),
    }
}

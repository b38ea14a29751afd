//! What others say to a node.
ghost use Rattle.std.specs.Prelude.{◌≡◌, ◌≢◌, ◌≤◌, ◌*◌, OnOk, true};
ghost use Rattle.cs_base.specs.declared.version.Version.TheVariants.{One};
ghost use Rattle.cs_wire_message.specs.Message.{MessageFits};
ghost use Rattle.cs_node_rules.specs.Site.{Datagram};
ghost use Rattle.cs_node_rules.specs.declared.cause.Cause.TheVariants.{Role};
ghost use Rattle.cs_node_rules.specs.Trail.{drops, taking_marks, member_marks, want_marks, message_marks, input_marks};
ghost use Rattle.cs_node.specs.Speaking.{Speaks};
ghost use Rattle.cs_node.specs.Steps.{MakesMarks};
ghost use Rattle.cs_node.specs.Cores.{Leads, LeadsBy};

use crate::asks::{ask, ask_proof};
use crate::draft::Draft;
use crate::engine::Engine;
use crate::handing::hand_out;
use crate::heads::hear_head;
use crate::members::is_other_member;
use crate::submits::submit;
use crate::votes::hear_vote;
use cs_base::{Memory, NodeId, Version};
use cs_node_rules::Cause;
use cs_node_state::Ballot;
use cs_node_wire::Carried;
use cs_order::Took;
use cs_tx::Judge;
use cs_wire::{Keys, read};
use cs_wire_message::Message;
use std::alloc::Global;

impl<O: Carried, J: Judge + Drop> Engine<O, J> {
    /// Does what a datagram says, or drops it.
    pub(crate) fn hear_datagram(
        &mut self,
        alloc: Global,
        keys: &Keys,
        draft: &mut Draft,
        bytes: &[u8],
    ) -> Result<(), Memory>
        requires { keys.now.version ≡ One }
        ensures { keys.now.me ≡ self.old.sbac.me →
            Leads O.stands J.is_approved O.rules O.carrier self.old self.new (λ site v After.
            Speaks self.old.sbac.config site.net keys.now →
            let marks = input_marks site v (Datagram bytes.now) in
            OnOk result (MakesMarks site marks v draft.old draft.new After)) }
    {
        match read(alloc, keys, bytes)? {
            Ok((sender, message)) => self.hear(alloc, draft, sender, message)?,
            Err(error) => draft.drop_it(Cause::Unopened(error))?,
        }
        Ok(())
    }

    /// Does what a message says, or drops it.
    fn hear(
        &mut self,
        alloc: Global,
        draft: &mut Draft,
        sender: NodeId,
        message: Message,
    ) -> Result<(), Memory>
        requires { MessageFits One message }
        ensures { LeadsBy O.stands J.is_approved O.rules O.carrier self.old self.new
            draft.old draft.new result (λ site v. message_marks site v sender message) }
    {
        match message {
            Message::Submit(session) => {
                submit(
                    alloc,
                    &mut self.sbac,
                    &mut self.judge,
                    draft,
                    sender,
                    session,
                )
            }
            Message::Ask(key) => ask(alloc, &self.sbac, draft, sender, key),
            Message::AskProof {
                slot,
                place: _place,
            } => ask_proof(alloc, &self.sbac, draft, sender, slot),
            Message::Voted {
                vote,
                asks,
                session,
            } => {
                let ballot = Ballot { sender, vote };
                hear_vote(
                    alloc,
                    &mut self.sbac,
                    &mut self.judge,
                    draft,
                    ballot,
                    asks,
                    session,
                )
            }
            Message::Want { slot } => self.hear_want(alloc, draft, sender, slot),
            Message::Head(checkpoint) => hear_head(&mut self.sbac, draft, sender, checkpoint),
            other => self.hear_member(alloc, draft, sender, other),
        }
    }

    /// Another member says something for the order, or what its sender may not say is dropped.
    fn hear_member(
        &mut self,
        alloc: Global,
        draft: &mut Draft,
        sender: NodeId,
        message: Message,
    ) -> Result<(), Memory>
        requires { MessageFits One message }
        ensures { LeadsBy O.stands J.is_approved O.rules O.carrier self.old self.new
            draft.old draft.new result
            (λ site v. member_marks site v sender (site.carrier.read message)) }
    {
        match O::read(alloc, message, Version::One)? {
            None => {
                draft.drop_it(Cause::Role)?;
                Ok(())
            }
            Some(message) => {
                if !is_other_member(self.sbac.config(), self.sbac.me(), sender) {
                    draft.drop_it(Cause::Role)?;
                    return Ok(());
                }
                self.take(alloc, draft, sender.index, message)
            }
        }
    }

    /// The order takes a message of another member, or refuses it.
    fn take(
        &mut self,
        alloc: Global,
        draft: &mut Draft,
        from: u16,
        message: O::Message,
    ) -> Result<(), Memory>
        ensures { from ≤ 3 * self.old.sbac.config.f → from ≢ self.old.sbac.me.index →
            O.rules.proper message ≡ true →
            LeadsBy O.stands J.is_approved O.rules O.carrier self.old self.new
            draft.old draft.new result
            (λ site v. taking_marks from message (O.rules.taking v.member from message)) }
    {
        match self.order.take(alloc, from, message)? {
            Took::Taken => {}
            Took::Old => draft.drop_it(Cause::Old)?,
            Took::Far => draft.drop_it(Cause::Far)?,
            Took::Leader => draft.drop_it(Cause::Leader)?,
            Took::Repeat => draft.drop_it(Cause::Repeat)?,
        }
        Ok(())
    }

    /// Another member wants to know what was chosen in a slot.
    fn hear_want(
        &self,
        alloc: Global,
        draft: &mut Draft,
        sender: NodeId,
        slot: u64,
    ) -> Result<(), Memory>
        ensures { LeadsBy O.stands J.is_approved O.rules O.carrier self.now self.now
            draft.old draft.new result (λ site v. want_marks site v sender slot) }
    {
        if !is_other_member(self.sbac.config(), self.sbac.me(), sender) {
            draft.drop_it(Cause::Role)?;
            return Ok(());
        }
        let mut outgoing = Vec::new(alloc);
        if !self.order.reply(alloc, slot, sender.index, &mut outgoing)? {
            draft.drop_it(Cause::Far)?;
            return Ok(());
        }
        hand_out::<O>(alloc, &self.sbac, draft, outgoing)?;
        Ok(())
    }
}

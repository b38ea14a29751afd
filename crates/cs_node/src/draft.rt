//! What an event has made so far.
ghost use Rattle.std.specs.Prelude.{◌≡◌, ◌∷◌, ◌++◌, [], OnOk};
ghost use Rattle.cs_tx_types.specs.Session.{ActionFits};
ghost use Rattle.cs_base.specs.declared.version.Version.TheVariants.{One};
ghost use Rattle.cs_wire_message.specs.Message.{MessageFits};
ghost use Rattle.cs_node.specs.Notes.{nothing_said, TellsSigns};
ghost use Rattle.cs_node_rules.specs.Signs.{Dropped, Viewed, Headed, Sent, sends};

use cs_base::{Memory, NodeId, Sequence};
use cs_node_rules::Cause;
use cs_sbac::Effect;
use cs_tx::{Action, Digest};
use cs_wire_message::Message;
use std::alloc::Global;
use std::marker::Model;

/// What a node tells of an input.
#[derive(Drop)]
pub enum Note {
    /// The input failed a test, and changed nothing.
    Dropped(Cause),
    /// The order entered a view of a slot.
    Viewed {
        slot: u64,
        view: u16,
    },
    /// An action was executed, in its place of a slot.
    Executed {
        slot: u64,
        place: u8,
        action: Action,
        effect: Effect,
    },
    /// A checkpoint was made.
    Headed {
        number: u64,
        head: Digest,
    },
}

/// A message to others, one after the other, before it is sealed.
#[derive(Drop)]
pub struct Said {
    pub to: Sequence<NodeId>,
    pub message: Message,
}

/// What an event has made so far, the oldest first. Executed actions have encodings, and what is
/// said has a body.
#[derive(Drop)]
pub struct Draft {
    pub(crate) notes: Sequence<Note>,
    pub(crate) said: Sequence<Said>,
}

impl Model for Draft {
    ghost use Rattle.std.specs.Coded.{codes};
    ghost use Rattle.cs_tx_value.specs.contracts.value.Value as values;
    ghost use Rattle.cs_node.specs.Drafts as drafts;

    ghost Value = { drafts.Draft };

    ghost coded = { Prim.hlevel (codes, values.the_row.coded) };

    ghost use Rattle.cs_node.specs.Notes.{DraftFits};

    ghost view = { λ d. record { notes = d.notes; said = d.said } };

    ghost invariant = { λ d. DraftFits (record { notes = d.notes; said = d.said }) };
}

impl Draft {
    /// Nothing yet.
    pub fn new(alloc: Global) -> Self
        ensures { result ≡ nothing_said }
    {
        Draft {
            notes: Sequence::new(alloc),
            said: Sequence::new(alloc),
        }
    }

    /// Notes that the input is dropped.
    pub fn drop_it(&mut self, cause: Cause) -> Result<(), Memory>
        ensures { OnOk result (TellsSigns (Dropped cause ∷ []) self.old self.new) }
    {
        self.notes.push(Note::Dropped(cause))?;
        Ok(())
    }

    /// Notes what an execution came to.
    pub fn note_execution(
        &mut self,
        slot: u64,
        place: u8,
        action: Action,
        effect: Effect,
    ) -> Result<(), Memory>
        requires { ActionFits action }
        ensures notes { let note = Note.Executed slot place action effect in
            OnOk result (self.new.notes ≡ self.old.notes ++ note ∷ []) }
        ensures said { OnOk result (self.new.said ≡ self.old.said) }
    {
        self.notes.push(Note::Executed {
            slot,
            place,
            action,
            effect,
        })?;
        Ok(())
    }

    /// Notes a view that the order entered.
    pub fn note_view(&mut self, slot: u64, view: u16) -> Result<(), Memory>
        ensures { OnOk result (TellsSigns (Viewed slot view ∷ []) self.old self.new) }
    {
        self.notes.push(Note::Viewed { slot, view })?;
        Ok(())
    }

    /// Notes a checkpoint that was made.
    pub fn note_head(&mut self, number: u64, head: Digest) -> Result<(), Memory>
        ensures { OnOk result (TellsSigns (Headed number head ∷ []) self.old self.new) }
    {
        self.notes.push(Note::Headed { number, head })?;
        Ok(())
    }

    /// Says something to these, one after the other.
    pub fn say_to(&mut self, to: Sequence<NodeId>, message: Message) -> Result<(), Memory>
        requires { MessageFits One message }
        ensures { OnOk result (TellsSigns (sends to message) self.old self.new) }
    {
        self.said.push(Said { to, message })?;
        Ok(())
    }

    /// Says something to one.
    pub fn say(&mut self, alloc: Global, to: NodeId, message: Message) -> Result<(), Memory>
        requires { MessageFits One message }
        ensures { OnOk result (TellsSigns (Sent to message ∷ []) self.old self.new) }
    {
        let mut names = Sequence::new(alloc);
        names.push(to)?;
        self.say_to(names, message)
    }
}

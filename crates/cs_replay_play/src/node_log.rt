//! The log of a node, kept from what the node tells.
ghost use Rattle.std.specs.Prelude.{◌≡◌, length, replicate, IfOk, OnOk};
ghost use Rattle.cs_base.specs.declared.version.Version.TheVariants.{One};
ghost use Rattle.cs_tx_types.specs.Log.{leaf_encoding, LeafFits};
ghost use Rattle.cs_node.specs.Notes.{NoteFits, NotesFit};
ghost use Rattle.cs_replay_play.specs.Logged.{none_logged, logged_with_leaf, note_logged, notes_logged, logged_at};

use cs_base::{Memory, Sequence};
use cs_check_rules::{Leaf, encode_leaf};
use cs_node::Note;
use cs_tx::Digest;
use std::alloc::Global;
use std::marker::Model;

/// The leaf of each slot that a node executed, and the head of each checkpoint that it made. It is
/// kept apart from the node, which gives up the leaves of old slots.
#[derive(Drop)]
pub struct NodeLog {
    leaves: Vec<Sequence<u8>>,
    heads: Vec<Digest>,
}

impl Model for NodeLog {
    ghost use Rattle.cs_replay_play.specs.Logged.{Logged};

    ghost Value = { Logged };

    ghost view = { λ l. record { leaves = l.leaves.items; heads = l.heads.items } };
}

impl NodeLog {
    /// The log of a node that executed nothing yet.
    pub fn new(alloc: Global) -> Self
        ensures { result ≡ none_logged }
    {
        NodeLog {
            leaves: Vec::new(alloc),
            heads: Vec::new(alloc),
        }
    }

    /// The number of slots that were executed.
    pub fn slots(&self) -> u64
        ensures { result ≡ length self.now.leaves }
    {
        self.leaves.len() as u64
    }

    /// The leaf of each slot, as encoded.
    pub fn leaves(&self) -> &[Sequence<u8>]
        ensures { result.now ≡ self.now.leaves }
    {
        self.leaves.as_slice()
    }

    /// The head of each checkpoint.
    pub fn heads(&self) -> &[Digest]
        ensures { result.now ≡ self.now.heads }
    {
        self.heads.as_slice()
    }

    /// Takes in what the node told of an event. Each action is encoded once, and none is copied.
    pub fn take(&mut self, alloc: Global, notes: Vec<Note>) -> Result<(), Memory>
        requires { NotesFit notes.items }
        ensures { OnOk result (self.new ≡ notes_logged notes.items self.old) }
    {
        for note in notes {
            self.take_note(alloc, note)?;
        }
        Ok(())
    }

    fn take_note(&mut self, alloc: Global, note: Note) -> Result<(), Memory>
        requires { NoteFits note }
        ensures { OnOk result (self.new ≡ note_logged note self.old) }
    {
        match note {
            Note::Executed {
                slot,
                action,
                effect,
                ..
            } => self.execute(
                alloc,
                &Leaf {
                    slot,
                    place: 0,
                    action,
                    result: effect,
                },
            ),
            Note::Headed { head, .. } => {
                self.heads.push(head)?;
                Ok(())
            }
            Note::Dropped(_) | Note::Viewed { .. } => Ok(()),
        }
    }

    fn execute(&mut self, alloc: Global, leaf: &Leaf) -> Result<(), Memory>
        requires { LeafFits One leaf.now }
        ensures { OnOk result (self.new ≡ logged_with_leaf (leaf_encoding One leaf.now) self.old) }
    {
        let bytes = encode_leaf(alloc, leaf)?;
        self.leaves.push(Sequence::from_vec(bytes))?;
        Ok(())
    }
}

/// The logs of so many nodes that executed nothing yet.
pub fn start_logs(alloc: Global, count: usize) -> Result<Vec<NodeLog>, Memory>
    ensures { IfOk result (λ logs. logs.items ≡ replicate count none_logged) }
{
    let mut logs = Vec::with_capacity(alloc, count)?;
    for _node in 0..count {
        logs.push(NodeLog::new(alloc))?;
    }
    Ok(logs)
}

/// The log of the node at a place takes in what the node told.
pub(crate) fn take_at(
    alloc: Global,
    logs: &mut Vec<NodeLog>,
    place: usize,
    notes: Vec<Note>,
) -> Result<(), Memory>
    requires { NotesFit notes.items }
    ensures { OnOk result (logs.new.items ≡ logged_at place notes.items logs.old.items) }
{
    if place < logs.len() {
        logs[place].take(alloc, notes)?;
    }
    Ok(())
}

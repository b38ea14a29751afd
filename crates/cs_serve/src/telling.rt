//! Printing what a node does.
ghost use Rattle.std.specs.Prelude.{◌≡◌, IfOk, OnOk, OnErr, IsErrOf, string_bytes};
ghost use Rattle.std.specs.Io.KnownBytes.{Appends};
ghost use Rattle.cs_base.specs.Outside.{HasCause};
ghost use Rattle.cs_base.specs.Answers.{AppendsFront};
ghost use Rattle.cs_node.specs.Notes.{NoteFits, NotesFit};
ghost use Rattle.cs_serve.specs.Telling.{served_note_text, served_notes_text};

use cs_base::{Memory, NodeId, Sink, WriteError, print};
use cs_node::Note;
use cs_node_run::{digest_in, head_line, slot_line};
use std::alloc::Global;

/// Prints the lines of what a node notes.
pub fn tell<K: Sink>(
    alloc: Global,
    out: &mut K,
    me: NodeId,
    notes: &[Note],
) -> Result<(), WriteError>
    requires { NotesFit notes.now }
    ensures all { OnOk result
        (Appends (K.written out.old) (K.written out.new) (served_notes_text me notes.now)) }
    ensures front { OnErr result
        (AppendsFront (K.written out.old) (K.written out.new) (served_notes_text me notes.now)) }
    ensures cause { HasCause (K.faults out.old) (K.faults out.new)
        (IsErrOf result WriteError.Failed) }
{
    let text = match notes_text(alloc, me, notes) {
        Ok(text) => text,
        Err(Memory) => return Err(WriteError::Memory),
    };
    print(out, text.as_bytes())
}

fn notes_text(alloc: Global, me: NodeId, notes: &[Note]) -> Result<String, Memory>
    requires { NotesFit notes.now }
    ensures { IfOk result (λ text. string_bytes text ≡ served_notes_text me notes.now) }
{
    let mut text = String::new(alloc);
    for note in notes {
        let line = note_text(alloc, me, note)?;
        text.push_str(&line)?;
    }
    Ok(text)
}

// The line of a note. What is dropped and which views are entered is told in a trace alone.
fn note_text(alloc: Global, me: NodeId, note: &Note) -> Result<String, Memory>
    requires { NoteFits note.now }
    ensures { IfOk result (λ text. string_bytes text ≡ served_note_text me note.now) }
{
    match note {
        Note::Dropped(_) => Ok(String::new(alloc)),
        Note::Viewed { .. } => Ok(String::new(alloc)),
        Note::Executed {
            slot,
            action,
            effect,
            ..
        } => {
            let digest = digest_in(alloc, action)?;
            slot_line(alloc, me, *slot, &digest, *effect)
        }
        Note::Headed { number, head } => head_line(alloc, me, *number, head),
    }
}

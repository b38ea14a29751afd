//! What is told of an event.
ghost use Rattle.std.specs.Prelude.{◌≡◌, ◌+◌, ◌<◌, ◌≤◌, ◌^◌, length, IfOk, OnOk, List, string_bytes};
ghost use Rattle.cs_node_state.specs.Setup.{Setup};
ghost use Rattle.cs_node_rules.specs.World.{Execution};
ghost use Rattle.cs_node_rules.specs.Lines.{if_traced};
ghost use Rattle.cs_replay_rules.specs.Lines.{at_line, sent_lines};
ghost use Rattle.cs_node.specs.Notes.{NoteFits, NotesFit};
ghost use Rattle.cs_replay_play.specs.Kept.{KeepsHistory};
ghost use Rattle.cs_replay_play.specs.Told.{note_text, notes_text, note_first, noted_firsts, note_aborted, noted_aborted};

use crate::history::History;
use crate::lines::{at_line, drop_line, sent_line, view_line};
use crate::parcel::Parcel;
use cs_base::{Memory, NodeId};
use cs_node::Note;
use cs_node_run::{digest_in, head_line, slot_line};
use std::alloc::Global;

/// The lines of the notes of a node; those of dropped datagrams and of views in a trace alone. The
/// history takes their executions in.
pub fn tell(
    alloc: Global,
    history: &mut History,
    traced: bool,
    me: NodeId,
    notes: &[Note],
) -> Result<String, Memory>
    requires fit { NotesFit notes.now }
    ensures lines { IfOk result (λ text. string_bytes text ≡ notes_text traced me notes.now) }
    ensures kept { (setup : Setup) (firsts : List Execution)
        → me.shard < history.old.config.shards → KeepsHistory setup firsts history.old
        → OnOk result (KeepsHistory setup (noted_firsts me.shard notes.now firsts) history.new) }
    ensures aborted { OnOk result (history.new.aborted
        ≡ noted_aborted notes.now history.old.aborted) }
    ensures config { OnOk result (history.new.config ≡ history.old.config) }
{
    let mut text = String::new(alloc);
    for note in notes {
        let line = tell_note(alloc, history, traced, me, note)?;
        text.push_str(&line)?;
    }
    Ok(text)
}

fn tell_note(
    alloc: Global,
    history: &mut History,
    traced: bool,
    me: NodeId,
    note: &Note,
) -> Result<String, Memory>
    requires fits { NoteFits note.now }
    ensures line { IfOk result (λ text. string_bytes text ≡ note_text traced me note.now) }
    ensures kept { (setup : Setup) (firsts : List Execution)
        → me.shard < history.old.config.shards → KeepsHistory setup firsts history.old
        → OnOk result (KeepsHistory setup (note_first me.shard note.now firsts) history.new) }
    ensures aborted { OnOk result (history.new.aborted
        ≡ note_aborted note.now history.old.aborted) }
    ensures config { OnOk result (history.new.config ≡ history.old.config) }
{
    match note {
        Note::Dropped(cause) => {
            if traced {
                drop_line(alloc, me, *cause)
            } else {
                Ok(String::new(alloc))
            }
        }
        Note::Viewed { slot, view } => {
            if traced {
                view_line(alloc, me, *slot, *view)
            } else {
                Ok(String::new(alloc))
            }
        }
        Note::Executed {
            slot,
            place,
            action,
            effect,
        } => {
            let digest = digest_in(alloc, action)?;
            history.execute(alloc, me.shard, *slot, *place, action, &digest, *effect)?;
            slot_line(alloc, me, *slot, &digest, *effect)
        }
        Note::Headed { number, head } => head_line(alloc, me, *number, head),
    }
}

/// The line of an event, in a trace.
pub fn head_text(alloc: Global, traced: bool, event: u64, line: u64) -> Result<String, Memory>
    ensures { IfOk result (λ text. string_bytes text ≡ if_traced traced (at_line event line)) }
{
    if traced {
        at_line(alloc, event, line)
    } else {
        Ok(String::new(alloc))
    }
}

/// The lines of datagrams that were sent, in a trace. The first has this number.
pub fn sent_text(
    alloc: Global,
    traced: bool,
    number: usize,
    parcels: &[Parcel],
) -> Result<String, Memory>
    requires { number + length parcels.now < 2 ^ 64 }
    ensures { IfOk result (λ text.
        string_bytes text ≡ if_traced traced (sent_lines number parcels.now)) }
{
    if traced {
        parcel_lines(alloc, number, parcels)
    } else {
        Ok(String::new(alloc))
    }
}

fn parcel_lines(alloc: Global, number: usize, parcels: &[Parcel]) -> Result<String, Memory>
    requires { number + length parcels.now < 2 ^ 64 }
    ensures { IfOk result (λ text. string_bytes text ≡ sent_lines number parcels.now) }
{
    let mut text = String::new(alloc);
    for (place, parcel) in parcels.iter().enumerate() {
        let line = sent_line(alloc, (number + place) as u64, parcel)?;
        text.push_str(&line)?;
    }
    Ok(text)
}

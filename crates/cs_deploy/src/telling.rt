//! What a command prints last.
ghost use Rattle.std.specs.Prelude.{◌≡◌, ◌≢◌, ◌≤◌};
ghost use Rattle.cs_base.specs.Outside.{HasCause};
ghost use Rattle.cs_io.specs.Outside.{Faulty};
ghost use Rattle.cs_base.specs.Answers.{Answers};
ghost use Rattle.cs_deploy.specs.Untaken.{untaken_answer, TellsUntaken};
ghost use Rattle.cs_config.specs.FileNames.{key_file};
ghost use Rattle.cs_deploy.specs.Keys.{TellsUnsaved};

use crate::{Cause, Untaken, refusal_line};
use cs_base::{NodeId, Sink, print};
use cs_config::{SaveError, key_file};
use cs_io::closing;
use std::alloc::Global;

/// Prints a text, and answers this status where all of it was written, 6 where the sink failed, and
/// 8 for want of memory.
pub fn tell<K: Sink>(out: &mut K, text: &[u8], status: u8) -> u8
    ensures answers { Answers (record { status = status; printed = text.now })
        (K.written out.old) (K.written out.new) result }
    ensures faults { K.faults out.old ≤ K.faults out.new }
    ensures cause { status ≢ 6 → result ≡ 6 → Faulty K.faults out.old out.new }
{
    closing(print(out, text), status)
}

/// Tells that the file of this name isn't taken.
pub fn refuse_file<K: Sink>(alloc: Global, name: &str, cause: Cause, out: &mut K) -> u8
    ensures answers { Answers (untaken_answer name.now cause)
        (K.written out.old) (K.written out.new) result }
    ensures cause { HasCause (K.faults out.old) (K.faults out.new) (result ≡ 6) }
{
    match refusal_line(alloc, name, cause) {
        Ok(line) => tell(out, line.as_bytes(), 12),
        Err(_) => 8,
    }
}

/// Tells which file isn't taken, and why.
pub fn refuse<K: Sink>(alloc: Global, why: Untaken, out: &mut K) -> u8
    ensures tells { TellsUntaken why (K.written out.old) (K.written out.new) result }
    ensures cause { HasCause (K.faults out.old) (K.faults out.new) (result ≡ 6) }
{
    match why {
        Untaken::Refused(name, cause) => refuse_file(alloc, name.as_str(), cause, out),
        Untaken::Memory => 8,
    }
}

// Tells that the store failed at the key file of a node or client.
fn refuse_keys<K: Sink>(alloc: Global, me: NodeId, out: &mut K) -> u8
    ensures answers { Answers (untaken_answer (key_file me) Cause.Fault)
        (K.written out.old) (K.written out.new) result }
    ensures cause { HasCause (K.faults out.old) (K.faults out.new) (result ≡ 6) }
{
    match key_file(alloc, me) {
        Ok(name) => refuse_file(alloc, name.as_str(), Cause::Fault, out),
        Err(_) => 8,
    }
}

/// Tells which key file isn't saved.
pub(crate) fn tell_unsaved<K: Sink>(alloc: Global, error: SaveError, out: &mut K) -> u8
    ensures tells { TellsUnsaved error (K.written out.old) (K.written out.new) result }
    ensures cause { HasCause (K.faults out.old) (K.faults out.new) (result ≡ 6) }
{
    match error {
        SaveError::Fault(me) => refuse_keys(alloc, me, out),
        SaveError::Memory => 8,
    }
}

//! Examining what the text of a source holds: a claim, or a dump.
ghost use Rattle.std.specs.Prelude.{◌≡◌, ◌≢◌, ◌<◌, ◌^◌};
ghost use Rattle.cs_base.specs.Outside.{HasCause};
ghost use Rattle.cs_base.specs.Answers.{Answers};
ghost use Rattle.cs_io.specs.Outside.{Faultless, Faulty};
ghost use Rattle.cs_io.specs.Answers.{SourceGives, GivesWhole};
ghost use Rattle.cs_cli.specs.Examined.{most_in, examined_answer};

use crate::auditing::audit_text;
use crate::verifying::verify_text;
use cs_audit_dump::MOST_DUMP;
use cs_base::{MOST_SCHEDULE, ReadError, Sink, Source, print, read_text};
use cs_io::closing;
use std::alloc::Global;

/// What a text is examined as.
#[derive(Clone, Copy, Debug, PartialEq, Eq)]
pub enum Subject {
    /// A head and a proof, of which it is said what the proof shows.
    Claim,
    /// A dump, of which it is said whether it is sound.
    Dump,
}

/// Answers what the text of the source comes to, by the status that a program ends with: 0 where the
/// proof is shown or no rule is broken, else 9; 3 for a bad line, 13 for a line past its limit, 5
/// where the source fails and 6 where the sink does, 8 for want of memory.
pub fn examine_source<S: Source, K: Sink>(
    alloc: Global,
    subject: Subject,
    input: &mut S,
    output: &mut K,
) -> u8
    ensures gives { SourceGives (most_in subject) (examined_answer subject)
        (S.left input.old) (S.left input.new) (K.written output.old) (K.written output.new)
        (Faulty S.faults input.old input.new) result }
    ensures whole { Faultless S.faults input.old input.new → Faultless K.faults output.old output.new
        → GivesWhole (most_in subject) (examined_answer subject)
        (S.left input.old) (K.written output.old) (K.written output.new) result }
    ensures only { result ≢ 2 }
    ensures read_fault { HasCause (S.faults input.old) (S.faults input.new) (result ≡ 5) }
    ensures write_fault { HasCause (K.faults output.old) (K.faults output.new) (result ≡ 6) }
{
    match read_text(alloc, most_in(subject), input) {
        Ok(text) => examine(alloc, subject, &text, output),
        Err(ReadError::Failed) => closing(print(output, b"read fault\n"), 5),
        Err(ReadError::Memory) => 8,
    }
}

// How many bytes a text may have.
fn most_in(subject: Subject) -> usize
    ensures is { result ≡ most_in subject }
    ensures bound { result < 2 ^ 32 }
{
    match subject {
        Subject::Claim => MOST_SCHEDULE,
        Subject::Dump => MOST_DUMP,
    }
}

// Answers what a text comes to.
fn examine<K: Sink>(alloc: Global, subject: Subject, text: &[u8], output: &mut K) -> u8
    ensures answers { Answers (examined_answer subject text.now)
        (K.written output.old) (K.written output.new) result }
    ensures only { (result ≢ 2) × (result ≢ 5) }
    ensures write_fault { HasCause (K.faults output.old) (K.faults output.new) (result ≡ 6) }
{
    match subject {
        Subject::Claim => verify_text(alloc, text, output),
        Subject::Dump => audit_text(alloc, text, output),
    }
}

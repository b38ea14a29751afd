//! Replaying the text of a source.
ghost use Rattle.std.specs.Prelude.{◌≡◌, ◌≢◌};
ghost use Rattle.cs_base.specs.Outside.{HasCause, Rose};
ghost use Rattle.cs_base.specs.Answers.{Answers};
ghost use Rattle.cs_base.specs.declared.limits.TheConstants.{MOST_SCHEDULE};
ghost use Rattle.cs_sched.specs.Playable.{IsPlayable};
ghost use Rattle.cs_native.specs.Approval.{is_approved_with_rules, is_approved_by};
ghost use Rattle.cs_replay.specs.Answers.{Replays, Completes, replay_answer, refusal_answer, schedule_answer};

use crate::schedule::{Mode, replay};
use cs_approve::{Book, BookError};
use cs_base::{MOST_SCHEDULE, ReadError, Sink, Source, print, read_text};
use cs_io::closing;
use cs_native::RuledBook;
use cs_sched::{Schedule, parse};
use cs_text::{Refusal, TextError, refusal_line};
use std::alloc::Global;

/// Replays the text of the source, by the book of its schedule's contracts, and answers the status
/// that a program ends with: 0 where it is done, 3 for a text with a bad line, 4 where a
/// line injects what its sender never sent, 13 where a quantity is past its limit, 5 where the
/// source fails and 6 where the sink does, 8 for want of memory.
pub fn replay_source<S: Source, K: Sink>(
    alloc: Global,
    mode: Mode,
    input: &mut S,
    output: &mut K,
) -> u8
    ensures replay { Replays MOST_SCHEDULE mode
        (S.left input.old) (S.left input.new) (K.written output.old) (K.written output.new)
        (Rose (S.faults input.old) (S.faults input.new)) result }
    ensures complete { (Rose (S.faults input.old) (S.faults input.new) → ⊥)
        → (Rose (K.faults output.old) (K.faults output.new) → ⊥)
        → Completes MOST_SCHEDULE mode
        (S.left input.old) (K.written output.old) (K.written output.new) result }
    ensures only { result ≢ 2 }
    ensures read_fault { HasCause (S.faults input.old) (S.faults input.new) (result ≡ 5) }
    ensures write_fault { HasCause (K.faults output.old) (K.faults output.new) (result ≡ 6) }
{
    match read_text(alloc, MOST_SCHEDULE, input) {
        Ok(text) => answer(alloc, mode, &text, output),
        Err(ReadError::Failed) => closing(print(output, b"read fault\n"), 5),
        Err(ReadError::Memory) => 8,
    }
}

// Replays a text.
fn answer<K: Sink>(alloc: Global, mode: Mode, text: &[u8], output: &mut K) -> u8
    ensures answers { Answers (replay_answer MOST_SCHEDULE mode text.now)
        (K.written output.old) (K.written output.new) result }
    ensures only { (result ≢ 2) × (result ≢ 5) }
    ensures write_fault { HasCause (K.faults output.old) (K.faults output.new) (result ≡ 6) }
{
    match parse(alloc, text) {
        Ok(schedule) => play(alloc, mode, &schedule, output),
        Err(TextError::Line(refusal)) => refuse(alloc, refusal, output),
        Err(TextError::Memory) => 8,
    }
}

// Plays a schedule at nodes that ask the rules, and the book of its contracts.
fn play<K: Sink>(alloc: Global, mode: Mode, schedule: &Schedule, output: &mut K) -> u8
    requires { IsPlayable schedule.now }
    ensures answers { Answers
        (schedule_answer (is_approved_by schedule.now.contracts) mode schedule.now)
        (K.written output.old) (K.written output.new) result }
    ensures only { (result ≢ 2) × (result ≢ 5) }
    ensures write_fault { HasCause (K.faults output.old) (K.faults output.new) (result ≡ 6) }
{
    match Book::new(alloc, schedule.contracts.as_slice()) {
        Ok(book) => {
            let ruled = RuledBook::new(book);
            play_by(alloc, mode, schedule, &ruled, output)
        }
        Err(BookError::Memory) => 8,
        // The contracts of a schedule are accepted.
        Err(BookError::Refused(..)) => unreachable!(),
    }
}

fn play_by<K: Sink>(
    alloc: Global,
    mode: Mode,
    schedule: &Schedule,
    book: &RuledBook,
    output: &mut K,
) -> u8
    requires { IsPlayable schedule.now }
    ensures answers { Answers (schedule_answer (is_approved_with_rules book.now) mode schedule.now)
        (K.written output.old) (K.written output.new) result }
    ensures only { (result ≢ 2) × (result ≢ 5) }
    ensures write_fault { HasCause (K.faults output.old) (K.faults output.new) (result ≡ 6) }
{
    match replay(alloc, schedule, book, mode, output) {
        Ok(_) => 0,
        Err(error) => error.status(),
    }
}

fn refuse<K: Sink>(alloc: Global, refusal: Refusal, output: &mut K) -> u8
    ensures answers { Answers (refusal_answer refusal)
        (K.written output.old) (K.written output.new) result }
    ensures only { (result ≢ 2) × (result ≢ 5) }
    ensures write_fault { HasCause (K.faults output.old) (K.faults output.new) (result ≡ 6) }
{
    let status = refusal.status();
    match refusal_line(alloc, refusal) {
        Ok(line) => closing(print(output, line.as_bytes()), status),
        Err(_) => 8,
    }
}

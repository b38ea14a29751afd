//! Auditing the dump of a text.
ghost use Rattle.std.specs.Prelude.{◌≡◌, ◌≢◌, ℕ, List, Ok, Err};
ghost use Rattle.cs_base.specs.Outside.{HasCause};
ghost use Rattle.cs_base.specs.Answers.{Answers};
ghost use Rattle.cs_native.specs.Approval.{is_approved_with_rules};
ghost use Rattle.cs_audit_dump.specs.Formed.{IsFormed};
ghost use Rattle.cs_audit_dump.specs.Text.{dump_of};
ghost use Rattle.cs_audit_dump.specs.declared.dump.Dump.{Dump as AnyDump};
ghost use Rattle.cs_audit_dump.specs.declared.limits.TheConstants.{MOST_DUMP};
ghost use Rattle.cs_audit_rules.specs.Sound.{SaysSound};
ghost use Rattle.cs_audit_rules.specs.Verdicts.{verdict_of};
ghost use Rattle.cs_cli.specs.Audited.{audited, audit_answer, dump_setup, dump_verdict, verdict_answer};

use cs_approve::{Book, BookError};
use cs_audit::{Verdict, audit, verdict_status, verdict_text};
use cs_audit_dump::{Dump, parse_dump};
use cs_base::{Sink, print};
use cs_io::closing;
use cs_native::RuledBook;
use cs_text::{Refusal, TextError, refusal_line};
use std::alloc::Global;

/// A dump to which yes is answered is sound, with the history that is told. There is no premise.
pub fn audited_dumps_are_sound()
    ensures sound { (text : List ℕ) (dump : AnyDump) → dump_of MOST_DUMP text ≡ Ok dump
        → SaysSound (dump_setup dump) dump (dump_verdict dump) }
    // Each shard has one log in it, in their order.
    ensures formed { (text : List ℕ) (dump : AnyDump) → dump_of MOST_DUMP text ≡ Ok dump
        → IsFormed dump }
{}

/// Audits the dump of a text, by the book of its contracts.
pub fn audit_text<K: Sink>(alloc: Global, text: &[u8], output: &mut K) -> u8
    ensures answers { Answers (audit_answer MOST_DUMP text.now)
        (K.written output.old) (K.written output.new) result }
    ensures only { (result ≢ 2) × (result ≢ 5) }
    ensures write_fault { HasCause (K.faults output.old) (K.faults output.new) (result ≡ 6) }
{
    match parse_dump(alloc, text) {
        Ok(dump) => audit_dump(alloc, &dump, output),
        Err(TextError::Line(refusal)) => refuse(alloc, refusal, output),
        Err(TextError::Memory) => 8,
    }
}

// Audits a dump by the book of its contracts.
fn audit_dump<K: Sink>(alloc: Global, dump: &Dump, output: &mut K) -> u8
    requires { IsFormed dump.now }
    ensures answers { Answers (audited (Ok dump.now))
        (K.written output.old) (K.written output.new) result }
    ensures only { (result ≢ 2) × (result ≢ 5) }
    ensures write_fault { HasCause (K.faults output.old) (K.faults output.new) (result ≡ 6) }
{
    match Book::new(alloc, dump.contracts.as_slice()) {
        Ok(book) => {
            let ruled = RuledBook::new(book);
            audit_by(alloc, dump, &ruled, output)
        }
        Err(BookError::Memory) => 8,
        // The contracts of a dump are accepted.
        Err(BookError::Refused(..)) => unreachable!(),
    }
}

fn audit_by<K: Sink>(alloc: Global, dump: &Dump, book: &RuledBook, output: &mut K) -> u8
    requires { IsFormed dump.now }
    ensures answers { Answers (verdict_answer (verdict_of (is_approved_with_rules book.now) dump.now))
        (K.written output.old) (K.written output.new) result }
    ensures only { (result ≢ 2) × (result ≢ 5) }
    ensures write_fault { HasCause (K.faults output.old) (K.faults output.new) (result ≡ 6) }
{
    match audit(alloc, dump, book) {
        Ok(verdict) => tell_verdict(alloc, &verdict, output),
        Err(_) => 8,
    }
}

fn tell_verdict<K: Sink>(alloc: Global, verdict: &Verdict, output: &mut K) -> u8
    ensures answers { Answers (verdict_answer verdict.now)
        (K.written output.old) (K.written output.new) result }
    ensures only { (result ≢ 2) × (result ≢ 5) }
    ensures write_fault { HasCause (K.faults output.old) (K.faults output.new) (result ≡ 6) }
{
    let status = verdict_status(verdict);
    match verdict_text(alloc, verdict) {
        Ok(text) => closing(print(output, text.as_bytes()), status),
        Err(_) => 8,
    }
}

fn refuse<K: Sink>(alloc: Global, refusal: Refusal, output: &mut K) -> u8
    ensures answers { Answers (audited (Err refusal))
        (K.written output.old) (K.written output.new) result }
    ensures only { (result ≢ 2) × (result ≢ 5) }
    ensures write_fault { HasCause (K.faults output.old) (K.faults output.new) (result ≡ 6) }
{
    let status = refusal.status();
    match refusal_line(alloc, refusal) {
        Ok(line) => closing(print(output, line.as_bytes()), status),
        Err(_) => 8,
    }
}

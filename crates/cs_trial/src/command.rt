//! The command `try`.
ghost use Rattle.std.specs.Prelude.{◌≡◌, ◌≢◌, ◌≤◌, Some, IfOk, IsErrAnd};
ghost use Rattle.cs_base.specs.Outside.{HasCause};
ghost use Rattle.cs_io.specs.Told.{Stays};
ghost use Rattle.cs_io.specs.Outside.{Faultless, Faulty};
ghost use Rattle.cs_types.specs.Accepting.{accepted_of};
ghost use Rattle.cs_types.specs.Faults.{IsFault};
ghost use Rattle.cs_trial.specs.Trials.{CasesAnswer};
ghost use Rattle.cs_trial.specs.Command.{FaultAnswer, Tells, TriesSource, TriesText, TryRuns, TryWhole};

use crate::trial::try_text;
use cs_base::{MOST_SCHEDULE, Memory, ReadError, Sink, Source, print, read_text};
use cs_deploy::{load, refuse};
use cs_explain::explained_line;
use cs_io::{Store, closing};
use cs_types::{Checked, Fault, Unjudged, judged};
use std::alloc::Global;

/// Tries the contract of the file of this name on the cases of the source, and answers the status
/// that a program ends with: 0 where none failed, else 9; 3 for a contract with a fault or a line
/// that is no case, 13 for a text past its limit, 12 where the file isn't taken, 5 where the source
/// fails and 6 where the sink does, 8 for want of memory.
pub fn run_try<S: Source, E: Store, K: Sink>(
    alloc: Global,
    name: &str,
    input: &mut S,
    store: &mut E,
    out: &mut K,
) -> u8
    ensures runs { TryRuns name.now
        (Faulty E.faults store.old store.new) (Faulty S.faults input.old input.new)
        (E.files store.old) (S.left input.old) (S.left input.new)
        (K.written out.old) (K.written out.new) result }
    ensures kept { Stays (E.files store.old) (E.files store.new) }
    // Where no fault came about, the file and the text of the source alone decide.
    ensures whole { Faultless E.faults store.old store.new → Faultless S.faults input.old input.new
        → Faultless K.faults out.old out.new
        → TryWhole name.now (E.files store.old) (S.left input.old)
        (K.written out.old) (K.written out.new) result }
    ensures only { result ≢ 2 }
    ensures read_fault { HasCause (S.faults input.old) (S.faults input.new) (result ≡ 5) }
    ensures write_fault { HasCause (K.faults out.old) (K.faults out.new) (result ≡ 6) }
{
    match load(alloc, store, name) {
        Ok(text) => try_contract(alloc, text.as_slice(), input, out),
        Err(why) => refuse(alloc, why, out),
    }
}

// Tries the contract of this text.
fn try_contract<S: Source, K: Sink>(alloc: Global, text: &[u8], input: &mut S, out: &mut K) -> u8
    ensures tries { TriesText text.now (Faulty S.faults input.old input.new)
        (S.left input.old) (S.left input.new) (K.written out.old) (K.written out.new) result }
    ensures only { result ≢ 2 }
    ensures read_fault { HasCause (S.faults input.old) (S.faults input.new) (result ≡ 5) }
    ensures write_fault { HasCause (K.faults out.old) (K.faults out.new) (result ≡ 6) }
{
    match judged(alloc, text) {
        Ok(checked) => try_accepted(alloc, &checked, text, input, out),
        Err(Unjudged::Faulty(fault)) => tell_fault(alloc, text, fault, out),
        Err(Unjudged::Memory) => 8,
    }
}

// Tells of the fault of a contract's text, and what explains it.
fn tell_fault<K: Sink>(alloc: Global, text: &[u8], fault: Fault, out: &mut K) -> u8
    requires { IsFault text.now fault }
    ensures tells { Tells (FaultAnswer text.now) (K.written out.old) (K.written out.new) result }
    ensures only { (result ≢ 2) × (result ≢ 5) }
    ensures write_fault { HasCause (K.faults out.old) (K.faults out.new) (result ≡ 6) }
{
    match explained_line(alloc, text, fault) {
        Ok(line) => closing(print(out, &line), fault.status()),
        Err(Memory) => 8,
    }
}

// Tries an accepted contract on the cases of the source.
fn try_accepted<S: Source, K: Sink>(
    alloc: Global,
    checked: &Checked,
    text: &[u8],
    input: &mut S,
    out: &mut K,
) -> u8
    ensures tries { TriesSource checked.now text.now (Faulty S.faults input.old input.new)
        (S.left input.old) (S.left input.new) (K.written out.old) (K.written out.new) result }
    ensures only { result ≢ 2 }
    ensures read_fault { HasCause (S.faults input.old) (S.faults input.new) (result ≡ 5) }
    ensures write_fault { HasCause (K.faults out.old) (K.faults out.new) (result ≡ 6) }
{
    match read_text(alloc, MOST_SCHEDULE, input) {
        Ok(cases) => try_read(alloc, checked, text, &cases, out),
        Err(ReadError::Failed) => closing(print(out, b"read fault\n"), 5),
        Err(ReadError::Memory) => 8,
    }
}

// Tries it on these cases.
fn try_read<K: Sink>(alloc: Global, checked: &Checked, text: &[u8], cases: &[u8], out: &mut K) -> u8
    ensures tells { Tells (CasesAnswer checked.now text.now cases.now)
        (K.written out.old) (K.written out.new) result }
    ensures only { (result ≢ 2) × (result ≢ 5) }
    ensures write_fault { HasCause (K.faults out.old) (K.faults out.new) (result ≡ 6) }
{
    match try_text(alloc, checked, text, cases) {
        Ok(trial) => closing(print(out, &trial.printed), trial.status),
        Err(Memory) => 8,
    }
}

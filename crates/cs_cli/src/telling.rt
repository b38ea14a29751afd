//! Telling of the contract that a source holds.
ghost use Rattle.std.specs.Prelude.{◌≡◌, ◌≢◌};
ghost use Rattle.cs_base.specs.Outside.{HasCause};
ghost use Rattle.cs_io.specs.Outside.{Faultless, Faulty};
ghost use Rattle.cs_cli.specs.Answers.{TellsSource, TellsOf, TellsContractAccepted, TellsWhole};

use crate::report::ContractMode;
use crate::report_on;
use cs_base::{ReadError, Sink, Source, print, read_text};
use cs_io::closing;
use cs_lang_token::MOST_TEXT;
use std::alloc::Global;

/// Tells of the contract that the text of the source is, and answers the status that a program ends
/// with: 0 where it is accepted, 3 where it has a fault, 13 where it has too many bytes, 5 where the
/// source fails and 6 where the sink does, 8 for want of memory.
pub fn tell_source<S: Source, K: Sink>(
    alloc: Global,
    mode: ContractMode,
    input: &mut S,
    output: &mut K,
) -> u8
    ensures tells { TellsSource mode
        (S.left input.old) (S.left input.new) (K.written output.old) (K.written output.new)
        (Faulty S.faults input.old input.new) result }
    ensures whole { Faultless S.faults input.old input.new → Faultless K.faults output.old output.new
        → TellsWhole mode
        (S.left input.old) (K.written output.old) (K.written output.new) result }
    ensures only { result ≢ 2 }
    ensures read_fault { HasCause (S.faults input.old) (S.faults input.new) (result ≡ 5) }
    ensures write_fault { HasCause (K.faults output.old) (K.faults output.new) (result ≡ 6) }
{
    match read_text(alloc, MOST_TEXT, input) {
        Ok(text) => tell(alloc, mode, &text, output),
        Err(ReadError::Failed) => closing(print(output, b"read fault\n"), 5),
        Err(ReadError::Memory) => 8,
    }
}

// Tells of a text.
fn tell<K: Sink>(alloc: Global, mode: ContractMode, text: &[u8], output: &mut K) -> u8
    ensures tells { TellsOf mode text.now (K.written output.old) (K.written output.new) result }
    ensures accepted { result ≢ 8
        → TellsContractAccepted mode text.now (K.written output.old) (K.written output.new) result }
    ensures only { (result ≢ 2) × (result ≢ 5) }
    ensures write_fault { HasCause (K.faults output.old) (K.faults output.new) (result ≡ 6) }
{
    match report_on(alloc, mode, text) {
        Ok(report) => closing(print(output, &report.printed), report.status),
        Err(_) => 8,
    }
}

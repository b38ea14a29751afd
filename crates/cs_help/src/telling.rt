//! Printing a fixed text.
ghost use Rattle.std.specs.Prelude.{◌≡◌, ◌≢◌};
ghost use Rattle.cs_base.specs.Outside.{HasCause, Rose};
ghost use Rattle.cs_base.specs.Answers.{Answers};
ghost use Rattle.cs_help.specs.Topics.{help_text, version_text, fixed_answer, help_answer, version_answer, TellsWhole};

use crate::help::help_text;
use crate::topic::Topic;
use crate::version::VERSION;
use cs_base::{Sink, print};
use cs_io::closing;

// Prints a text.
fn tell<K: Sink>(text: &str, output: &mut K) -> u8
    ensures answers { Answers (fixed_answer text.now)
        (K.written output.old) (K.written output.new) result }
    ensures whole { (Rose (K.faults output.old) (K.faults output.new) → ⊥)
        → TellsWhole text.now (K.written output.old) (K.written output.new) result }
    ensures only { (result ≢ 2) × (result ≢ 5) }
    ensures write_fault { HasCause (K.faults output.old) (K.faults output.new) (result ≡ 6) }
{
    closing(print(output, text.as_bytes()), 0)
}

/// Prints the text of a topic, and answers the status that a program ends with: 0, 6 where the sink
/// fails, 8 for want of memory.
pub fn tell_help<K: Sink>(topic: Topic, output: &mut K) -> u8
    ensures answers { Answers (help_answer topic)
        (K.written output.old) (K.written output.new) result }
    ensures whole { (Rose (K.faults output.old) (K.faults output.new) → ⊥)
        → TellsWhole (help_text topic) (K.written output.old) (K.written output.new) result }
    ensures only { (result ≢ 2) × (result ≢ 5) }
    ensures write_fault { HasCause (K.faults output.old) (K.faults output.new) (result ≡ 6) }
{
    tell(help_text(topic), output)
}

/// Prints the program's version, and answers the same.
pub fn tell_version<K: Sink>(output: &mut K) -> u8
    ensures answers { Answers version_answer
        (K.written output.old) (K.written output.new) result }
    ensures whole { (Rose (K.faults output.old) (K.faults output.new) → ⊥)
        → TellsWhole version_text (K.written output.old) (K.written output.new) result }
    ensures only { (result ≢ 2) × (result ≢ 5) }
    ensures write_fault { HasCause (K.faults output.old) (K.faults output.new) (result ≡ 6) }
{
    tell(VERSION, output)
}

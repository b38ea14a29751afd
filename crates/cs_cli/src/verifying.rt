//! Verifying the proof of a text.
ghost use Rattle.std.specs.Prelude.{◌≡◌, ◌≢◌};
ghost use Rattle.cs_base.specs.Outside.{HasCause};
ghost use Rattle.cs_base.specs.Answers.{Answers};
ghost use Rattle.cs_base.specs.declared.limits.TheConstants.{MOST_SCHEDULE};
ghost use Rattle.cs_verify.specs.Verdicts.{verify_answer};

use cs_base::{Sink, print};
use cs_io::closing;
use cs_verify::{judge, verdict_text};
use std::alloc::Global;

/// Says what the head and the proof in a text show.
pub fn verify_text<K: Sink>(alloc: Global, text: &[u8], output: &mut K) -> u8
    ensures answers { Answers (verify_answer MOST_SCHEDULE text.now)
        (K.written output.old) (K.written output.new) result }
    ensures only { (result ≢ 2) × (result ≢ 5) }
    ensures write_fault { HasCause (K.faults output.old) (K.faults output.new) (result ≡ 6) }
{
    let verdict = match judge(alloc, text) {
        Ok(verdict) => verdict,
        Err(_) => return 8,
    };
    match verdict_text(alloc, &verdict) {
        Ok(line) => closing(print(output, line.as_bytes()), verdict.status()),
        Err(_) => 8,
    }
}

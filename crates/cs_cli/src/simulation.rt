//! Simulations.
ghost use Rattle.std.specs.Prelude.{◌≡◌, ◌≢◌, ◌≤◌};
ghost use Rattle.cs_base.specs.Outside.{HasCause, Rose};
ghost use Rattle.cs_base.specs.Answers.{Answers};
ghost use Rattle.cs_gen.specs.declared.limits.TheConstants.{MOST_SIZE};
ghost use Rattle.cs_cli.specs.SimulatedReports.{AnswersWhole};
ghost use Rattle.cs_cli.specs.Simulated.{simulate_answer, IsEndOfReplay};

use crate::simulated::report_on;
use cs_base::{Sink, print};
use cs_gen::MOST_SIZE;
use cs_io::closing;
use std::alloc::Global;

/// Replays the schedule of a number and a size, prints the numbers of the replay, and answers the
/// status that a program ends with: 0 where it is done, 3 where two of the schedule's objects have
/// one key, 13 where an event would pass a limit, 6 where the sink fails, 8 for want of memory.
pub fn simulate<K: Sink>(alloc: Global, number: u64, size: u32, output: &mut K) -> u8
    requires { size ≤ MOST_SIZE }
    ensures answers { Answers (simulate_answer number size)
        (K.written output.old) (K.written output.new) result }
    ensures whole { (Rose (K.faults output.old) (K.faults output.new) → ⊥)
        → AnswersWhole (simulate_answer number size)
        (K.written output.old) (K.written output.new) result }
    // Nothing is injected, so nothing is forged.
    ensures ends { IsEndOfReplay (simulate_answer number size) }
    ensures only { (result ≢ 2) × (result ≢ 5) }
    ensures write_fault { HasCause (K.faults output.old) (K.faults output.new) (result ≡ 6) }
{
    match report_on(alloc, number, size) {
        Ok(report) => closing(print(output, report.printed.as_bytes()), report.status),
        Err(_) => 8,
    }
}

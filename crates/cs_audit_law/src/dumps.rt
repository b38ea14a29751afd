//! What an auditor answers to the dump of a replay: yes.

ghost use Rattle.std.specs.Prelude.{ℕ, Bool, ◌<◌, ◌^◌};
ghost use Rattle.cs_tx_types.specs.declared.transaction.Tx.{Tx};
ghost use Rattle.cs_sched.specs.declared.schedule.Schedule.{Schedule};
ghost use Rattle.cs_sched.specs.Playable.{IsPlayable};
ghost use Rattle.cs_audit_law.specs.Answered.{IsAnsweredYes};

use crate::worlds_pass_audit;
use cs_audit_dump::{dumps_are_read_behind_lines, printed_dumps_are_read};
use cs_log::SlotOrder;
use cs_replay::schedules_are_sound;
use cs_replay_rules::schedules_play_worlds;

/// What is answered to the dump of every schedule that can be played, whatever its judge approves
/// of, and to all that its replay prints.
///
/// It does nothing: its contract is a theorem, which a caller has by calling it.
pub fn dumps_are_answered_yes()
    ensures { (limit : ℕ) → limit < 2 ^ 64 → (approves : Tx → Bool) (schedule : Schedule)
        → IsPlayable schedule → IsAnsweredYes limit approves schedule }
{
    schedules_play_worlds::<SlotOrder>();
    schedules_are_sound();
    worlds_pass_audit::<SlotOrder>();
    printed_dumps_are_read();
    dumps_are_read_behind_lines();
}

//! What is true of every world in which few enough nodes lie, and of every schedule.
ghost use Rattle.std.specs.Prelude.{Bool};
ghost use Rattle.cs_tx_types.specs.declared.transaction.Tx.{Tx};
ghost use Rattle.cs_sched.specs.declared.schedule.Schedule.{Schedule};
ghost use Rattle.cs_sched.specs.Playable.{IsPlayable};
ghost use Rattle.cs_replay.specs.Sound.{IsSound, WorldsAreSound};

use cs_log::SlotOrder;
use cs_node_law::events_end_quiet;
use cs_replay_rules::schedules_play_worlds;
use cs_world_law::{heads_show_executions, second_phase, settled_world};

/// What is true of every world of at most 16 shards, each of 3f+1 nodes of which at most f lie, after
/// each of its events.
///
/// It does nothing: its contract is a theorem, which a caller has by calling it.
pub fn worlds_are_sound()
    ensures { WorldsAreSound }
{
    events_end_quiet::<SlotOrder>();
    second_phase();
    settled_world::<SlotOrder>();
    heads_show_executions::<SlotOrder>();
}

/// What is true of every schedule that can be played, whatever its judge approves of.
///
/// It does nothing: its contract is a theorem, which a caller has by calling it.
pub fn schedules_are_sound()
    ensures { (approves : Tx → Bool) (schedule : Schedule)
        → IsPlayable schedule → IsSound approves schedule }
{
    schedules_play_worlds::<SlotOrder>();
    worlds_are_sound();
}

//! What the checkpoints of honest nodes tell.

ghost use Rattle.cs_world_law.specs.Worlds.{OfWorlds, OfWorldsApart};
ghost use Rattle.cs_world_law.specs.Shown.{KeepsExecuted, ShowsExecuted, HeadsAgree};

use cs_check_rules::shown_leaf_is_covered;
use cs_node_law::marks_are_made;
use cs_order::Order;

/// What holds of the checkpoints of honest nodes, in every world of up to 16 shards, whatever its
/// order, its genesis and its judge, where at most f of the 3f+1 nodes of each shard lie.
///
/// It does nothing: its contract is a theorem, which a caller has by calling it.
pub fn heads_show_executions<O: Order>()
    // The log of which an honest node makes its checkpoints has the leaves of what it executed,
    // slot by slot, and no others.
    ensures kept { OfWorlds O.rules (λ site world. KeepsExecuted site world) }
    // What is shown under a head that an honest node noted is what it executed, where slots fit
    // into 64 bits and the strings hashed for its checkpoint and for the proof don't collide.
    ensures shown { OfWorlds O.rules (λ site world. ShowsExecuted site world) }
    // No two honest nodes of a shard note different heads of one number.
    ensures agreed { OfWorldsApart O.rules (λ site world. HeadsAgree site world) }
{
    marks_are_made::<O>();
    shown_leaf_is_covered();
}

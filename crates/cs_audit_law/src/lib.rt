//! What an auditor finds in the logs of a world in which few enough nodes lie: no broken rule. So
//! the dump of a replay is answered yes.
#![tactic(auto)]

mod dumps;

ghost use Rattle.std.specs.Prelude.{◌≡◌};
ghost use Rattle.cs_base.specs.declared.version.Version.TheVariants.{One};
ghost use Rattle.cs_world_law.specs.Worlds.{OfWorldsApart};
ghost use Rattle.cs_audit_law.specs.Passing.{LogsBreakNoRule, DecisionsHaveVotes, HistoryIsWhole, PassesAudit, DumpsFirsts, LeavesFit};

use cs_node_law::marks_are_made;
use cs_order::Order;
pub use dumps::dumps_are_answered_yes;

/// What steps leave that may be taken one after the other, with computed results.
pub fn steps_break_no_rule()
    // Their logs break no rule of slots.
    ensures logs { LogsBreakNoRule }
    // Each decision in them has its votes.
    ensures support { DecisionsHaveVotes }
    // The history that they tell is that of their logs, and the ledger takes it.
    ensures history { HistoryIsWhole }
{}

/// Of every world of version 1 in which at most f nodes of each shard lie, and no strings collide
/// that are hashed, the logs and the history break no rule of the audit.
pub fn worlds_pass_audit<O: Order>()
    ensures passes { OfWorldsApart O.rules (λ site world. site.setup.version ≡ One
        → PassesAudit site world) }
    // The longest log of a shard's honest nodes is that of all that was executed there.
    ensures longest { OfWorldsApart O.rules (λ site world. site.setup.version ≡ One
        → DumpsFirsts site world) }
    // Each leaf of these has an encoding.
    ensures fit { OfWorldsApart O.rules (λ site world. site.setup.version ≡ One
        → LeavesFit site world) }
{
    marks_are_made::<O>();
}

// What the order of each honest node has done where no rule applies.

ghost use Rattle.cs_order_rules.specs.SlotMachine.{slot_machine};
ghost use Rattle.cs_node_rules.specs.Ready.{AllQuiet};
ghost use Rattle.cs_world_law.specs.Worlds.{OfWorlds};
ghost use Rattle.cs_world_law.specs.Agreement.{AllAgree};
ghost use Rattle.cs_world_law.specs.Orders.{SaysHanded};

use cs_order_law::rules_are_lawful;

/// The second phase of a session, at every honest node of a shard at which no rule applies: what may be echoed is
/// echoed, what 2f+1 members echoed is confirmed, and what 2f+1 members confirmed is chosen. What the order hands out
/// on the way is sent.
///
/// It does nothing: its contract is a theorem, which a caller has by calling it.
pub fn second_phase()
    // No premise on hashes is needed.
    ensures done { OfWorlds slot_machine (λ site world. AllQuiet site world → AllAgree site world) }
    // Whatever the order of an honest node handed out is proper, reads as it was, and has been sent
    // to whom it is for: to each other member, or to the one that it names.
    ensures said { OfWorlds slot_machine (λ site world. SaysHanded site world) }
{
    rules_are_lawful();
}

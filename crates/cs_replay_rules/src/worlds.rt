// What schedules play.

ghost use Rattle.cs_replay_rules.specs.PlayedWorlds.{PlaysWorlds};

use cs_order::Order;

/// What the schedules play, over any order: worlds in which honest nodes keep the rules, and are
/// given bytes of which none is forged.
///
/// It does nothing: its contract is a theorem, which a caller has by calling it.
pub fn schedules_play_worlds<O: Order>()
    ensures { PlaysWorlds O.rules }
{}

// What holds of the marks of every node.

ghost use Rattle.std.specs.Prelude.{◌≡◌};
ghost use Rattle.cs_node_rules.specs.Site.{Site};
ghost use Rattle.cs_node_law.specs.Made.{EventIsMade, LocksAreGiven, NotesAreGiven, CutsAreAlike, DropChangesNothing, LivesAreQuiet};

use cs_order::Order;

/// What holds of the marks of every node that keeps the rules, over any order.
///
/// It does nothing: its contract is a theorem, which a caller has by calling it.
pub fn marks_are_made<O: Order>()
    // Each event adds only marks that are made.
    ensures made { (site : Site O.Message) → EventIsMade site }
    // A lock comes from a Prepare that was voted commit.
    ensures locks { (site : Site O.Message) → LocksAreGiven site }
    // A vote that is on record comes from a Prepare that gave it.
    ensures notes { (site : Site O.Message) → NotesAreGiven site }
{}

/// What a datagram that is dropped does to a node at which no rule applies, over any order:
/// nothing, but that it was given and dropped.
///
/// It does nothing: its contract is a theorem, which a caller has by calling it.
pub fn a_dropped_datagram_changes_nothing<O: Order>()
    // The event makes the mark that it was dropped, and no other; the node is as it was before.
    ensures { (site : Site O.Message) → DropChangesNothing site }
{}

/// What nodes have left to do after an event, over any order: nothing.
///
/// It does nothing: its contract is a theorem, which a caller has by calling it.
pub fn events_end_quiet<O: Order>()
    // After any events of nodes that keep the rules, no rule applies at any node.
    ensures { (site : Site O.Message) → site.machine ≡ O.rules → LivesAreQuiet site }
{}

/// What cuts take from nodes, over any order: where each entry has one action, from the order of a
/// node the same slots as from its chain, which is cut by its own count.
///
/// It does nothing: its contract is a theorem, which a caller has by calling it.
pub fn cuts_are_alike<O: Order>()
    // After any events of nodes that keep the rules, order and chain of a node keep the same slots.
    ensures { (site : Site O.Message) → CutsAreAlike site }
{}

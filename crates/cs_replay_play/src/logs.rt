//! The logs of the nodes, for a dump.
ghost use Rattle.std.specs.Prelude.{◌≡◌, ℕ, List, length, option_copied, OnOk};
ghost use Rattle.cs_node_state.specs.Setup.{Setup};
ghost use Rattle.cs_node_rules.specs.Net.{Net};
ghost use Rattle.cs_node_rules.specs.Site.{Input};
ghost use Rattle.cs_node_rules.specs.World.{Happening, happens};
ghost use Rattle.cs_node_rules.specs.Deployment.{site_of};
ghost use Rattle.cs_replay_rules.specs.Dumps.{shard_log};
ghost use Rattle.cs_node.specs.declared.outs.Made.{Made};
ghost use Rattle.cs_node.specs.Notes.{NotesFit};
ghost use Rattle.cs_replay_play.specs.Logged.{AllLogged, logged_of};
ghost use Rattle.cs_replay_play.specs.Longest.{honest_log, slots_in, longer_found, logged_or_empty};
ghost use Rattle.cs_replay_play.specs.Standing.{site_in, HasNode, Delivered};
ghost use Rattle.cs_replay_play.specs.Ends.{WhereStands};

use crate::cores::place_of;
use crate::node_log::{NodeLog, take_at};
use crate::play::Replay;
use cs_base::{Config, Memory, NodeId, Sequence};
use cs_node::{Carried, Core, Note};
use cs_tx::Judge;
use std::alloc::Global;

/// The log of a node takes in what it told of an event.
pub(crate) fn keep_told<O: Carried, J: Judge + Drop>(
    alloc: Global,
    cores: &[Core<O, J>],
    logs: &mut Vec<NodeLog>,
    me: NodeId,
    notes: Sequence<Note>,
) -> Result<(), Memory>
    requires { NotesFit notes }
    ensures { (setup : Setup) (net : Net) (names : ℕ → NodeId) (world : List (Happening O.Message))
        → (input : Input) (made : Made)
        → let site = site_of setup net O.rules O.carrier in
        Delivered O.stands J.is_approved site names cores.now world me input made
        → made.notes ≡ notes → HasNode names (length cores.now) me
        → AllLogged site names (length cores.now) logs.old.items world
        → OnOk result (AllLogged site names (length cores.now) logs.new.items
        (happens site me input world)) }
{
    match place_of(cores, me) {
        Some(place) => take_at(alloc, logs, place, notes.into_vec()),
        None => Ok(()),
    }
}

impl<O: Carried, J: Judge + Drop> Replay<O, J> {
    /// The longest log of the shard's honest nodes, of equally long ones that of the least index;
    /// none where nothing was executed in the shard.
    pub fn shard_log(&self, config: Config, shard: u16) -> Option<&NodeLog>
        ensures { WhereStands O.stands J.is_approved O.rules O.carrier self.now (λ s p.
            s.setup.f ≡ config.f → logged_or_empty (option_copied result)
            ≡ logged_of (shard_log (site_in O.rules O.carrier s) p.world shard)) }
    {
        let mut found = None;
        for index in 0..3 * config.f + 1 {
            found = longer(found, self.node_log(NodeId { shard, index }));
        }
        found
    }

    // The log of a node, if it doesn't lie.
    fn node_log(&self, name: NodeId) -> Option<&NodeLog>
        ensures { WhereStands O.stands J.is_approved O.rules O.carrier self.now (λ s p.
            option_copied result ≡ honest_log (site_in O.rules O.carrier s) p.world name) }
    {
        match place_of(self.cores.as_slice(), name) {
            Some(place) => self.logs.get(place),
            None => None,
        }
    }
}

// The later log where it is longer, else the first.
fn longer<'a>(first: Option<&'a NodeLog>, later: Option<&'a NodeLog>) -> Option<&'a NodeLog>
    ensures { option_copied result
        ≡ longer_found (option_copied first.entry) (option_copied later.entry) }
{
    match later {
        Some(log) if slots_in(first) < log.slots() => later,
        _ => first,
    }
}

fn slots_in(log: Option<&NodeLog>) -> u64
    ensures { result ≡ slots_in (option_copied log.entry) }
{
    match log {
        Some(log) => log.slots(),
        None => 0,
    }
}

//! The nodes of a replay.
ghost use Rattle.std.specs.Prelude.{◌≡◌, ◌≢◌, ℕ, ◌<◌, List, length, IfOk, OnOk, IfSome, IfNone};
ghost use Rattle.cs_base.specs.declared.node_id.NodeId.{NodeId};
ghost use Rattle.cs_node_state.specs.Setup.{Setup};
ghost use Rattle.cs_node_rules.specs.Net.{Net};
ghost use Rattle.cs_node_rules.specs.Site.{Site, View};
ghost use Rattle.cs_node_rules.specs.World.{Happening};
ghost use Rattle.cs_node_rules.specs.Deployment.{site_of};
ghost use Rattle.cs_node.specs.Notes.{NotesFit};
ghost use Rattle.cs_node.specs.Speaking.{input_of, sender_of};
ghost use Rattle.cs_replay_play.specs.Standing.{EachStands, AllStand, HasNode, Delivered};

use cs_base::{Memory, NodeId, Sequence};
use cs_node::{Carried, Core, Made};
use cs_tx::Judge;
use cs_wire::Input;
use std::alloc::Global;

/// The place of the core of a node.
pub fn place_of<O: Carried, J: Judge + Drop>(cores: &[Core<O, J>], name: NodeId) -> Option<usize>
    ensures within { IfSome result (λ place. place < length cores.now) }
    ensures named { (site : Site O.Message) (views : ℕ → View O.Message)
        → EachStands O.stands J.is_approved site cores.now views
        → IfSome result (λ place. (views place).me ≡ name) }
    ensures none { (site : Site O.Message) (views : ℕ → View O.Message)
        → EachStands O.stands J.is_approved site cores.now views
        → IfNone result ((i : ℕ) → i < length cores.now → (views i).me ≢ name) }
{
    for (place, core) in cores.iter().enumerate() {
        if core.me() == name {
            return Some(place);
        }
    }
    None
}

/// As whom bytes open at a node. At a name without a core they don't open. It takes no memory.
pub fn sender_at<O: Carried, J: Judge + Drop>(
    cores: &[Core<O, J>],
    to: NodeId,
    bytes: &[u8],
) -> Option<NodeId>
    ensures { (site : Site O.Message) (names : ℕ → NodeId) (views : ℕ → View O.Message)
        → EachStands O.stands J.is_approved site cores.now views
        → ((i : ℕ) → (views i).me ≡ names i) → HasNode names (length cores.now) to
        → result ≡ sender_of (site.net.opened to bytes.now) }
{
    match place_of(cores, to) {
        Some(place) => cores[place].sender(bytes),
        None => None,
    }
}

/// Gives an input to a node. A name without a core takes nothing. After a want of memory the core
/// of the node is gone.
pub fn deliver<O: Carried, J: Judge + Drop>(
    alloc: Global,
    cores: &mut Vec<Core<O, J>>,
    to: NodeId,
    input: Input<'_>,
) -> Result<Made, Memory>
    ensures delivered { (setup : Setup) (net : Net)
        → (names : ℕ → NodeId) (world : List (Happening O.Message))
        → AllStand O.stands J.is_approved (site_of setup net O.rules O.carrier)
        names cores.old.items world
        → HasNode names (length cores.old.items) to
        → IfOk result (Delivered O.stands J.is_approved (site_of setup net O.rules O.carrier)
        names cores.new.items world to (input_of input.entry)) }
    ensures fits { IfOk result (λ made. NotesFit made.notes) }
    ensures count { OnOk result (length cores.new.items ≡ length cores.old.items) }
{
    match place_of(cores, to) {
        Some(place) => {
            let core = cores.remove(place);
            let (core, made) = core.step(alloc, input)?;
            cores.insert(place, core)?;
            Ok(made)
        }
        None => Ok(Made {
            outs: Sequence::new(alloc),
            notes: Sequence::new(alloc),
        }),
    }
}

//! Nodes that run, each with keys of its own.
ghost use Rattle.std.specs.Prelude.{◌≡◌, Bool, ℕ, List, Ok};
ghost use Rattle.cs_base.specs.declared.config.Config.{Config};
ghost use Rattle.cs_base.specs.declared.node_id.NodeId.{NodeId};
ghost use Rattle.cs_tx_value.specs.declared.object.Object.{Object};
ghost use Rattle.cs_tx_types.specs.declared.transaction.Tx.{Tx};
ghost use Rattle.cs_wire.specs.declared.keys.Keys.{Keys};
ghost use Rattle.cs_order_rules.specs.declared.message.OrderMessage.{OrderMessage};
ghost use Rattle.cs_node_rules.specs.Site.{Site, start_view};
ghost use Rattle.cs_node_rules.specs.World.{trail_of};
ghost use Rattle.cs_node.specs.Speaking.{Speaks};
ghost use Rattle.cs_world_law.specs.Worlds.{net_of_keys};
ghost use Rattle.cs_config.specs.File.{keys_of};
ghost use Rattle.cs_serve.specs.Serving.{trail};
ghost use Rattle.cs_run_law.specs.Running.{Given, inputs_at, world_given, site_of_keys, IsTraffic};
ghost use Rattle.cs_replay.specs.Sound.{IsSoundWorld, AfterEach};

use cs_replay::worlds_are_sound;

/// The keys of each key file, in a deployment of version 1, speak in the net of any nodes and clients
/// of which it is one, whoever gave the others theirs: so a node that is served with them is served
/// in that net.
///
/// It does nothing: its contract is a theorem, which a caller has by calling it.
pub fn keys_of_files_speak()
    ensures { (config : Config) (text : List ℕ) (keys : NodeId → Keys) (liars : List NodeId)
        (i : NodeId) → config.version ≡ 1 → keys_of config text ≡ Ok (keys i) → (keys i).me ≡ i
        → Speaks config (net_of_keys config keys liars) (keys i) }
{}

/// What honest nodes are given, one after the other, makes a world: each does what it does where it
/// is served with its inputs alone.
///
/// It does nothing: its contract is a theorem, which a caller has by calling it.
#[tactic(auto, using(crate::proofs::Trails::trail_served))]
pub fn nodes_serve_their_trails()
    ensures { (site : Site OrderMessage) (given : List Given) (i : NodeId)
        → trail_of i (world_given site given) ≡ trail site (start_view site i) (inputs_at i given) }
{}

/// What is true of the world of nodes that run, each with keys of its own, at most f of the 3f+1
/// nodes of each shard lying, after each event: of whatever they are given of which nothing is
/// forged.
///
/// It does nothing: its contract is a theorem, which a caller has by calling it.
pub fn running_nodes_are_sound()
    ensures { (config : Config) (keys : NodeId → Keys) (liars : List NodeId)
        (genesis : List Object) (approves : Tx → Bool) (given : List Given) →
        let site = site_of_keys config keys liars genesis approves in
        IsTraffic site given → AfterEach (IsSoundWorld site genesis) (world_given site given) }
{
    worlds_are_sound();
}

//! Keys of a master key.
ghost use Rattle.std.specs.Prelude.{◌≡◌, ◌≤◌, ℕ, List, true};
ghost use Rattle.cs_base.specs.declared.config.Config.{Config};
ghost use Rattle.cs_base.specs.declared.node_id.NodeId.{NodeId};
ghost use Rattle.cs_base.specs.NodeId.{is_node};
ghost use Rattle.cs_wire.specs.declared.keys.Keys.{Keys};
ghost use Rattle.cs_wire.specs.Keys.{IsOfMaster};
ghost use Rattle.cs_node_rules.specs.Net.{net_of};
ghost use Rattle.cs_node.specs.Speaking.{Speaks};

/// A node whose keys a master key gave in version 1 speaks in the net of that master key.
pub fn keys_of_a_master_speak()
    ensures { (config : Config) (master : List ℕ) (liars : List NodeId)
        (me : NodeId) (keys : Keys) →
        config.shards ≤ 16 → config.version ≡ 1 → is_node config me ≡ true → IsOfMaster config master me keys →
        Speaks config (net_of config master liars) keys }
{}

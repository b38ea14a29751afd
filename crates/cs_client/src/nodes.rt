//! The nodes of shards.
ghost use Rattle.std.specs.Prelude.{◌≡◌, ◌++◌, ◌+◌, ◌*◌, IfOk, OnOk};
ghost use Rattle.cs_base.specs.NodeId.{members_below};
ghost use Rattle.cs_client.specs.Nodes.{nodes_of_shards};

use cs_base::{Config, Memory, NodeId, Sequence};
use std::alloc::Global;

// Adds the nodes of a shard.
fn add_nodes(names: &mut Sequence<NodeId>, config: &Config, shard: u16) -> Result<(), Memory>
    ensures { OnOk result
        (names.new ≡ names.old ++ members_below shard (3 * config.now.f + 1)) }
{
    for index in 0..3 * config.f + 1 {
        names.push(NodeId { shard, index })?;
    }
    Ok(())
}

/// All nodes of these shards, in the order of the shards.
pub fn nodes_of(alloc: Global, config: &Config, shards: &[u16]) -> Result<Sequence<NodeId>, Memory>
    ensures { IfOk result (λ names. names ≡ nodes_of_shards config.now.f shards.now) }
{
    let mut names = Sequence::new(alloc);
    for shard in shards {
        add_nodes(&mut names, config, *shard)?;
    }
    Ok(names)
}

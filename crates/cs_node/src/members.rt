//! The other nodes.
ghost use Rattle.std.specs.Prelude.{◌≡◌, ◌++◌, ◌+◌, ◌*◌, IfOk, OnOk};
ghost use Rattle.cs_node_rules.specs.Members.{is_other_member, except, others};
ghost use Rattle.cs_base.specs.NodeId.{members_below};

use cs_base::{Config, Memory, NodeId, Sequence};
use std::alloc::Global;

/// Whether a name is that of another member of the shard.
pub fn is_other_member(config: &Config, me: NodeId, name: NodeId) -> bool
    ensures { result ≡ is_other_member config.now.f me name }
{
    name.shard == me.shard && name.index < 3 * config.f + 1 && name.index != me.index
}

// Adds the nodes of a shard, but the node itself.
fn add_members(
    names: &mut Sequence<NodeId>,
    config: &Config,
    me: NodeId,
    shard: u16,
) -> Result<(), Memory>
    ensures { let members = members_below shard (3 * config.now.f + 1) in
        OnOk result (names.new ≡ names.old ++ except me members) }
{
    for index in 0..3 * config.f + 1 {
        let name = NodeId { shard, index };
        if name != me {
            names.push(name)?;
        }
    }
    Ok(())
}

/// All nodes of these shards but the node itself, in the order of the shards.
pub fn others(
    alloc: Global,
    config: &Config,
    me: NodeId,
    shards: &[u16],
) -> Result<Sequence<NodeId>, Memory>
    ensures { IfOk result (λ names. names ≡ others config.now.f me shards.now) }
{
    let mut names = Sequence::new(alloc);
    for shard in shards {
        add_members(&mut names, config, me, *shard)?;
    }
    Ok(names)
}

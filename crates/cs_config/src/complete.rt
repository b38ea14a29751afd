//! Which lists of peers a node or client of a configuration may have.
ghost use Rattle.std.specs.Prelude.{◌≡◌};
ghost use Rattle.std.specs.List.{list_all};
ghost use Rattle.cs_base.specs.NodeId.{is_named, members_below};
ghost use Rattle.cs_wire.specs.Keys.{stands};
ghost use Rattle.cs_wire.specs.AllNames.{nodes_below};
ghost use Rattle.cs_config.specs.Complete.{is_held, is_complete};

use cs_base::{Config, NodeId};
use cs_tx_value::Digest;

// Whether the node stands in the list.
fn stands(list: &[(NodeId, Digest, Digest)], node: NodeId) -> bool
    ensures { result ≡ stands node list.now }
{
    list.iter().any(|peer| peer.0 == node)
}

// Whether the node stands in the list, or is me.
fn is_held(me: NodeId, list: &[(NodeId, Digest, Digest)], node: NodeId) -> bool
    ensures { result ≡ is_held me list.now node }
{
    node == me || stands(list, node)
}

// Whether so many members of a shard are held.
fn members_held(me: NodeId, list: &[(NodeId, Digest, Digest)], shard: u16, count: u16) -> bool
    ensures { result ≡ list_all (is_held me list.now) (members_below shard count) }
{
    for index in 0..count {
        if !is_held(me, list, NodeId { shard, index }) {
            return false;
        }
    }
    true
}

// Whether so many members of so many shards are held.
fn nodes_held(me: NodeId, list: &[(NodeId, Digest, Digest)], members: u16, shards: u16) -> bool
    ensures { result ≡ list_all (is_held me list.now) (nodes_below members shards) }
{
    for shard in 0..shards {
        if !members_held(me, list, shard, members) {
            return false;
        }
    }
    true
}

fn are_named(config: &Config, list: &[(NodeId, Digest, Digest)]) -> bool
    ensures { result ≡ list_all (λ peer. is_named config.now peer.0) list.now }
{
    list.iter().all(|peer| config.has(peer.0))
}

/// Whether each peer is a node or client of the configuration, and each of its nodes is a peer or
/// me.
pub fn is_complete(config: &Config, me: NodeId, list: &[(NodeId, Digest, Digest)]) -> bool
    ensures { result ≡ is_complete config.now me list.now }
{
    are_named(config, list) && nodes_held(me, list, 3 * config.f + 1, config.shards)
}

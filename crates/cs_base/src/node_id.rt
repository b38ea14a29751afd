//! The names of nodes and clients.
ghost use Rattle.std.specs.Prelude.{◌≡◌, ◌<◌, ◌^◌, Some};
ghost use Rattle.cs_base.specs.NodeId.{is_client, node_text, node_of, node_at, shard_named};
ghost use Rattle.cs_base.specs.declared.node_id.NodeId.{NodeId};

use crate::line::split_at_byte;
use crate::number::read_number;
use std::fmt;

/// The shard that stands in the name of a client.
pub const CLIENT_SHARD: u16 = 0xFFFF;

/// How many clients there are.
pub const CLIENTS: u16 = 16;

/// A node, by its shard and its place there; or a client, whose shard is `CLIENT_SHARD`.
/// Its text is `S.I` for a node and `c.N` for a client, in decimal without leading zeros.
#[derive(Clone, Copy, Debug, PartialEq, Eq, PartialOrd, Ord)]
pub struct NodeId {
    pub shard: u16,
    pub index: u16,
}

impl NodeId {
    /// Whether this is the name of a client.
    pub fn is_client(self) -> bool
        ensures { result ≡ is_client self }
    {
        self.shard == CLIENT_SHARD && self.index < CLIENTS
    }
}

impl fmt::Display for NodeId {
    ghost output = { λ id. Some (node_text id) };

    fn fmt<W: fmt::Write>(&self, f: &mut fmt::Formatter<W>) -> fmt::Result {
        if self.shard == CLIENT_SHARD {
            write!(f, "c.{}", self.index)
        } else {
            write!(f, "{}.{}", self.shard, self.index)
        }
    }
}

/// The name of which the field is the text. Whether a configuration has it is `Config::has`.
pub fn read_node(field: &[u8]) -> Option<NodeId>
    ensures { result ≡ node_of field.now }
{
    let (front, back) = split_at_byte(field, b'.')?;
    with_numbers(read_shard(front), read_number(back))
}

// The shard in front of the dot.
fn read_shard(front: &[u8]) -> Option<u64>
    ensures { result ≡ shard_named front.now }
{
    if front == b"c".as_slice() {
        return Some(u64::from(CLIENT_SHARD));
    }
    match read_number(front) {
        Some(shard) if shard != u64::from(CLIENT_SHARD) => Some(shard),
        _ => None,
    }
}

fn with_numbers(shard: Option<u64>, index: Option<u64>) -> Option<NodeId>
    ensures { result ≡ node_at shard index }
{
    let shard = u16::try_from(shard?).ok()?;
    let index = u16::try_from(index?).ok()?;
    Some(NodeId { shard, index })
}

/// What is printed of a name is read as that name.
pub fn printed_node_is_read()
    ensures { (id : NodeId) → id.shard < 2 ^ 16 → id.index < 2 ^ 16
        → node_of (node_text id) ≡ Some id }
{}

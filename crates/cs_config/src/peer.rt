//! Names in a key file, and what is shared with a peer.
ghost use Rattle.std.specs.Prelude.{◌≡◌, codes, IfOk};
ghost use Rattle.toml.specs.View.{view, table_view};
ghost use Rattle.cs_config.specs.Items.{hex_digest};
ghost use Rattle.cs_config.specs.Named.{node_in, held_at};
ghost use Rattle.cs_config.specs.Peer.{peer_at, name_in, peer_in};

use crate::{Readable, held_under};
use cs_base::{Memory, NodeId, read_node};
use cs_tx_value::Digest;
use std::alloc::Global;
use toml::{Table, Value};

/// The name of a node or a client, of this deployment or another.
#[derive(Clone, Copy, Debug, PartialEq, Eq)]
pub struct Name(pub NodeId);

/// A peer, the key to it, and the key from it.
#[derive(Drop)]
pub struct Peer(pub (NodeId, Digest, Digest));

fn node_in(value: &Value) -> Option<NodeId>
    ensures { result ≡ node_in (view value.now) }
{
    match value.as_str() {
        Some(text) => read_node(text.as_bytes()),
        None => None,
    }
}

/// The name of a node or client that a table holds.
pub(crate) fn name_at(table: &Table) -> Option<NodeId>
    ensures { result ≡ held_at node_in (codes "name") (table_view table.now) }
{
    match held_under(table, "name") {
        Some(value) => node_in(value),
        None => None,
    }
}

fn key_at(alloc: Global, table: &Table, key: &str) -> Result<Option<Digest>, Memory>
    ensures { IfOk result (λ held. held ≡ held_at hex_digest key.now (table_view table.now)) }
{
    match held_under(table, key) {
        Some(value) => Digest::read(alloc, value),
        None => Ok(None),
    }
}

fn read_peer(alloc: Global, table: &Table) -> Result<Option<Peer>, Memory>
    ensures { IfOk result (λ peer. peer ≡ peer_at (table_view table.now)) }
{
    let Some(id) = name_at(table) else {
        return Ok(None);
    };
    let Some(to) = key_at(alloc, table, "to")? else {
        return Ok(None);
    };
    let Some(from) = key_at(alloc, table, "from")? else {
        return Ok(None);
    };
    Ok(Some(Peer((id, to, from))))
}

impl Readable for Name {
    ghost meaning = { name_in };

    ghost Fits = { λ _. Unit {0} };

    fn read(_alloc: Global, value: &Value) -> Result<Option<Name>, Memory> {
        match node_in(value) {
            Some(id) => Ok(Some(Name(id))),
            None => Ok(None),
        }
    }
}

impl Readable for Peer {
    ghost meaning = { peer_in };

    ghost Fits = { λ _. Unit {0} };

    fn read(alloc: Global, value: &Value) -> Result<Option<Peer>, Memory> {
        match value.as_table() {
            Some(table) => read_peer(alloc, table),
            None => Ok(None),
        }
    }
}

//! The names of a deployment, and the keys that a master key gives them.
ghost use Rattle.std.specs.Prelude.{◌≡◌, ◌++◌, ◌||◌, Bool, IfOk, OnOk};
ghost use Rattle.cs_base.specs.declared.node_id.NodeId.{NodeId};
ghost use Rattle.cs_base.specs.NodeId.{is_named, members_below, same_name as same_as};
ghost use Rattle.cs_wire.specs.AllNames.{nodes_of, names_of, has_name};
ghost use Rattle.cs_wire.specs.Keys.{pair_text, key_between, row_between, row_of_peer, row_expected};

use crate::head::write_name;
use crate::keys::{Row, same_name};
use cs_base::{CLIENT_SHARD, CLIENTS, Config, Memory, NodeId, Sequence, Writer};
use cs_hash::tag;
use cs_tx_value::Digest;
use std::alloc::Global;

/// The bytes of the text of a pair.
const PAIR: usize = 11;

// Adds so many members of a shard.
fn add_members(names: &mut Sequence<NodeId>, shard: u16, count: u16) -> Result<(), Memory>
    ensures { OnOk result (names.new ≡ names.old ++ members_below shard count) }
{
    for index in 0..count {
        names.push(NodeId { shard, index })?;
    }
    Ok(())
}

/// All nodes of a configuration, by shard and index.
pub fn all_nodes(alloc: Global, config: &Config) -> Result<Sequence<NodeId>, Memory>
    ensures { IfOk result (λ nodes. nodes ≡ nodes_of config.now) }
{
    let mut names = Sequence::new(alloc);
    let members = 3 * config.f + 1;
    for shard in 0..config.shards {
        add_members(&mut names, shard, members)?;
    }
    Ok(names)
}

/// All nodes of a configuration, by shard and index, and then the clients.
pub fn all_names(alloc: Global, config: &Config) -> Result<Sequence<NodeId>, Memory>
    ensures { IfOk result (λ names. names ≡ names_of config.now) }
{
    let mut names = all_nodes(alloc, config)?;
    add_members(&mut names, CLIENT_SHARD, CLIENTS)?;
    Ok(names)
}

#[tactic(auto, unfolding(crate::specs::Keys::pair_text))]
fn text_of_pair(alloc: Global, from: NodeId, to: NodeId) -> Result<Vec<u8>, Memory>
    ensures { IfOk result (λ text. text.items ≡ pair_text from to) }
{
    let mut out = Writer::with_room(alloc, PAIR)?;
    out.take(b"key".as_slice())?;
    write_name(from, &mut out)?;
    write_name(to, &mut out)?;
    Ok(out.into_bytes())
}

/// The key that a master key gives from one name to another.
pub fn key_between(
    alloc: Global,
    master: &Digest,
    from: NodeId,
    to: NodeId,
) -> Result<Digest, Memory>
    ensures { IfOk result (λ key. key ≡ key_between master.now from to) }
{
    let text = text_of_pair(alloc, from, to)?;
    Ok(tag(master.as_slice(), &text))
}

fn row_for(alloc: Global, master: &Digest, me: NodeId, peer: NodeId) -> Result<Row, Memory>
    ensures { IfOk result (λ row. row ≡ row_between master.now me peer) }
{
    let to = key_between(alloc, master, me, peer)?;
    let from = key_between(alloc, master, peer, me)?;
    Ok(Row::new(peer, &to, &from))
}

// Adds what is shared with a name, where it isn't me.
#[tactic(auto, using(crate::proofs::Rows::row_added, crate::proofs::Rows::row_skipped))]
fn add_row(
    alloc: Global,
    master: &Digest,
    me: NodeId,
    name: NodeId,
    rows: &mut Sequence<Row>,
) -> Result<(), Memory>
    ensures { OnOk result ((peer : NodeId) (is_one : Bool)
        → row_of_peer peer rows.old ≡ row_expected master.now me is_one peer
        → row_of_peer peer rows.new
        ≡ row_expected master.now me (is_one || same_as name peer) peer) }
{
    if same_name(name, me) {
        return Ok(());
    }
    let row = row_for(alloc, master, me, name)?;
    rows.push(row)?;
    Ok(())
}

fn rows_for(
    alloc: Global,
    master: &Digest,
    me: NodeId,
    names: &[NodeId],
) -> Result<Sequence<Row>, Memory>
    ensures { IfOk result (λ rows. (peer : NodeId)
        → row_of_peer peer rows ≡ row_expected master.now me (has_name peer names.now) peer) }
{
    let mut rows = Sequence::new(alloc);
    for i in 0..names.len() {
        add_row(alloc, master, me, names[i], &mut rows)?;
    }
    Ok(rows)
}

/// The keys that a master key gives to one of the names, with all others as its peers.
pub fn rows_of_master(
    alloc: Global,
    config: &Config,
    master: &Digest,
    me: NodeId,
) -> Result<Sequence<Row>, Memory>
    ensures { IfOk result (λ rows. (peer : NodeId)
        → row_of_peer peer rows ≡ row_expected master.now me (is_named config.now peer) peer) }
{
    let names = all_names(alloc, config)?;
    rows_for(alloc, master, me, names.as_slice())
}

//! Reading key files.
ghost use Rattle.std.specs.Prelude.{◌≡◌, IfOk, map};
ghost use Rattle.toml.specs.View.{table_view};
ghost use Rattle.cs_config.specs.Reading.{FileGives};
ghost use Rattle.cs_config.specs.File.{me_in, peers_in, listed_keys, keys_of};

use crate::complete::is_complete;
use crate::peer::{Name, Peer};
use crate::{ConfigError, FileField, Site, each_at, one_at, read_table};
use cs_base::{Config, Memory, NodeId, Sequence};
use cs_tx_value::Digest;
use cs_wire::{Keys, KeysError};
use std::alloc::Global;
use toml::Table;

/// The keys of a key file of the site. Every node of the site but the one itself has to be a peer;
/// clients may be.
pub fn read_keys(alloc: Global, bytes: &[u8], site: &Site) -> Result<Keys, ConfigError>
    ensures { FileGives result (keys_of site.now.config bytes.now) }
{
    let table = read_table(alloc, bytes)?;
    let me = read_me(alloc, &site.config, &table)?;
    let list = read_peers(alloc, &table)?;
    make_keys(alloc, &site.config, me, list.as_slice())
}

fn read_me(alloc: Global, config: &Config, table: &Table) -> Result<NodeId, ConfigError>
    ensures { FileGives result (me_in config.now (table_view table.now)) }
{
    let Name(me) = one_at(alloc, table, FileField::Me)?;
    if !config.has(me) {
        return Err(ConfigError::Field(FileField::Me));
    }
    Ok(me)
}

fn read_peers(
    alloc: Global,
    table: &Table,
) -> Result<Sequence<(NodeId, Digest, Digest)>, ConfigError>
    ensures { FileGives result (peers_in (table_view table.now)) }
{
    let peers: Sequence<Peer> = each_at(alloc, table, FileField::Peers)?;
    Ok(list_of(alloc, peers.as_slice())?)
}

fn list_of(alloc: Global, peers: &[Peer]) -> Result<Sequence<(NodeId, Digest, Digest)>, Memory>
    ensures { IfOk result (λ list. list ≡ map (λ peer. peer.0) peers.now) }
{
    let mut list = Sequence::new(alloc);
    for peer in peers {
        let listed = peer.0;
        list.push(listed)?;
    }
    Ok(list)
}

fn make_keys(
    alloc: Global,
    config: &Config,
    me: NodeId,
    list: &[(NodeId, Digest, Digest)],
) -> Result<Keys, ConfigError>
    ensures { FileGives result (listed_keys config.now me list.now) }
{
    if !is_complete(config, me, list) {
        return Err(ConfigError::Field(FileField::Peers));
    }
    match Keys::from_list(alloc, me, list, 1) {
        Ok(keys) => Ok(keys),
        Err(KeysError::Memory) => Err(ConfigError::Memory),
        Err(KeysError::Twice(_)) => Err(ConfigError::Field(FileField::Peers)),
    }
}

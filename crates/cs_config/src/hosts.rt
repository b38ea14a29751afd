//! Hosts files.
ghost use Rattle.std.specs.Prelude.{◌≡◌, IfOk, map};
ghost use Rattle.std.specs.List.{list_all};
ghost use Rattle.toml.specs.View.{table_view};
ghost use Rattle.cs_base.specs.NodeId.{is_named};
ghost use Rattle.cs_config.specs.Reading.{FileGives};
ghost use Rattle.cs_config.specs.Hosts.{is_placed, are_apart, hosts_among, addresses_in, tick_in, hosts_of};

use crate::document::read_table;
use crate::error::{ConfigError, FileField};
use crate::fields::{each_at, value_at};
use crate::host::Host;
use crate::limits::{LEAST_TICK, MOST_TICK};
use crate::numbers::within;
use cs_base::{Config, Memory, NodeId, Sequence};
use std::alloc::Global;
use std::net::IpAddr;
use toml::Table;

/// Where the nodes and clients of a deployment are, and how often time is told to pass.
#[derive(Drop)]
pub struct Hosts {
    /// The address of each that isn't on its user's own machine.
    pub addresses: Sequence<(NodeId, IpAddr)>,
    /// How many milliseconds lie between ticks.
    pub tick: u64,
}

/// What a hosts file says of the nodes and clients of a configuration.
pub fn read_hosts(alloc: Global, bytes: &[u8], config: &Config) -> Result<Hosts, ConfigError>
    ensures { FileGives result (hosts_of config.now bytes.now) }
{
    let table = read_table(alloc, bytes)?;
    let addresses = read_addresses(alloc, config, &table)?;
    let tick = read_tick(&table)?;
    Ok(Hosts { addresses, tick })
}

fn read_addresses(
    alloc: Global,
    config: &Config,
    table: &Table,
) -> Result<Sequence<(NodeId, IpAddr)>, ConfigError>
    ensures { FileGives result (addresses_in config.now (table_view table.now)) }
{
    let hosts: Sequence<Host> = each_at(alloc, table, FileField::Hosts)?;
    let addresses = addresses_of(alloc, hosts.as_slice())?;
    among(config, addresses)
}

fn addresses_of(alloc: Global, hosts: &[Host]) -> Result<Sequence<(NodeId, IpAddr)>, Memory>
    ensures { IfOk result (λ list. list ≡ map (λ host. host.0) hosts.now) }
{
    let mut list = Sequence::new(alloc);
    for host in hosts {
        let named = host.0;
        list.push(named)?;
    }
    Ok(list)
}

// The hosts, where each is a node or client of the configuration, and none stands twice.
fn among(
    config: &Config,
    hosts: Sequence<(NodeId, IpAddr)>,
) -> Result<Sequence<(NodeId, IpAddr)>, ConfigError>
    ensures { result ≡ hosts_among config.now hosts }
{
    let list = hosts.as_slice();
    if are_named(config, list) && are_apart(list) {
        Ok(hosts)
    } else {
        Err(ConfigError::Field(FileField::Hosts))
    }
}

fn are_named(config: &Config, hosts: &[(NodeId, IpAddr)]) -> bool
    ensures { result ≡ list_all (λ host. is_named config.now host.0) hosts.now }
{
    hosts.iter().all(|host| config.has(host.0))
}

fn is_placed(name: NodeId, hosts: &[(NodeId, IpAddr)]) -> bool
    ensures { result ≡ is_placed name hosts.now }
{
    hosts.iter().any(|host| host.0 == name)
}

// Whether no name stands twice.
fn are_apart(hosts: &[(NodeId, IpAddr)]) -> bool
    ensures { result ≡ are_apart hosts.now }
{
    for (place, host) in hosts.iter().enumerate() {
        let (_, later) = hosts.split_at(place + 1);
        if is_placed(host.0, later) {
            return false;
        }
    }
    true
}

// The milliseconds between ticks, as they are told, or else the least.
fn read_tick(table: &Table) -> Result<u64, ConfigError>
    ensures { result ≡ tick_in (table_view table.now) }
{
    let Some(value) = value_at(table, FileField::Tick) else {
        return Ok(LEAST_TICK);
    };
    let Some(tick) = value.as_integer() else {
        return Err(ConfigError::Field(FileField::Tick));
    };
    within(FileField::Tick, tick, LEAST_TICK, MOST_TICK)
}

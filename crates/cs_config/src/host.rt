//! A host in a hosts file: the name of a node or a client, and where it is.
ghost use Rattle.std.specs.Prelude.{◌≡◌, ◌↔◌, ℕ, List, Some, codes};
ghost use Rattle.std.specs.declared.net.ip_addr.IpAddr.{IpAddr};
ghost use Rattle.std.specs.Net.Grammar.{IsIpText};
ghost use Rattle.toml.specs.View.{view, table_view};
ghost use Rattle.cs_config.specs.Named.{held_at};
ghost use Rattle.cs_config.specs.Hosts.{address_of, address_in, host_at, host_in};

use crate::peer::name_at;
use crate::{Readable, held_under};
use cs_base::{Memory, NodeId};
use std::alloc::Global;
use std::net::IpAddr;
use toml::{Table, Value};

/// The name of a node or a client, of this deployment or another, and its address.
#[derive(Clone, Copy)]
pub struct Host(pub (NodeId, IpAddr));

/// An address is read of exactly the texts that write it.
///
/// It does nothing: its contract is a theorem, which a caller has by calling it.
pub fn addresses_are_read()
    ensures { (text : List ℕ) (address : IpAddr)
        → (address_of text ≡ Some address) ↔ IsIpText text address }
{}

fn address_of(text: &str) -> Option<IpAddr>
    ensures { result ≡ address_of text.now }
{
    match text.parse::<IpAddr>() {
        Ok(address) => Some(address),
        Err(_) => None,
    }
}

fn address_in(value: &Value) -> Option<IpAddr>
    ensures { result ≡ address_in (view value.now) }
{
    match value.as_str() {
        Some(text) => address_of(text),
        None => None,
    }
}

fn address_at(table: &Table) -> Option<IpAddr>
    ensures { result ≡ held_at address_in (codes "address") (table_view table.now) }
{
    match held_under(table, "address") {
        Some(value) => address_in(value),
        None => None,
    }
}

fn host_at(table: &Table) -> Option<Host>
    ensures { result ≡ host_at (table_view table.now) }
{
    let name = name_at(table)?;
    let address = address_at(table)?;
    Some(Host((name, address)))
}

impl Readable for Host {
    ghost meaning = { host_in };

    ghost Fits = { λ _. Unit {0} };

    fn read(_alloc: Global, value: &Value) -> Result<Option<Host>, Memory> {
        match value.as_table() {
            Some(table) => Ok(host_at(table)),
            None => Ok(None),
        }
    }
}

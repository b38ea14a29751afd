//! The addresses and ports of a deployment.
ghost use Rattle.std.specs.Prelude.{◌≡◌, ◌↔◌, None, IfOk, IsErr};
ghost use Rattle.cs_os.specs.Ports.{port_of, told_address, IsIpOf, IsAddressOf};

use cs_base::{CLIENT_SHARD, NodeId};
use std::io::{self, ErrorKind};
use std::net::{IpAddr, Ipv4Addr, SocketAddr};

/// The port of a node or client: that of node S.I is 16 S + I above the base port, that of client
/// c.N is 256 + N above it.
pub fn port_of(base_port: u16, name: NodeId) -> Option<u16>
    ensures { result ≡ port_of base_port name }
{
    let place = if name.shard == CLIENT_SHARD {
        256 + u32::from(name.index)
    } else {
        16 * u32::from(name.shard) + u32::from(name.index)
    };
    u16::try_from(u32::from(base_port) + place).ok()
}

// The address that a node or client was told to have.
fn told_address(hosts: &[(NodeId, IpAddr)], name: NodeId) -> Option<IpAddr>
    ensures { result ≡ told_address hosts.now name }
{
    for host in hosts {
        if host.0 == name {
            return Some(host.1);
        }
    }
    None
}

// The same, or else this computer's loopback.
fn ip_of(hosts: &[(NodeId, IpAddr)], name: NodeId) -> IpAddr
    ensures { IsIpOf (told_address hosts.now name) result }
{
    match told_address(hosts, name) {
        Some(ip) => ip,
        None => IpAddr::V4(Ipv4Addr::LOCALHOST),
    }
}

/// The address of a node or client: where it was told to be, or else on this computer's loopback.
pub fn address_of(
    hosts: &[(NodeId, IpAddr)],
    base_port: u16,
    name: NodeId,
) -> io::Result<SocketAddr>
    ensures own { IfOk result (IsAddressOf hosts.now base_port name) }
    ensures none { IsErr result ↔ (port_of base_port name ≡ None) }
{
    match port_of(base_port, name) {
        Some(port) => Ok(SocketAddr::new(ip_of(hosts, name), port)),
        None => Err(io::Error::from(ErrorKind::InvalidInput)),
    }
}

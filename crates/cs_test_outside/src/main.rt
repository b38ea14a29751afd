//! Tries the real outside: files, a socket at two ports and at two addresses, and a child of this same program. Given a
//! word it is the child, and ends with the status 7.
#![tactic(auto)]

ghost use Rattle.std.specs.Prelude.{◌≡◌, ◌+◌, length};

use cs_base::{CLIENT_SHARD, MOST_DATAGRAM, NodeId};
use cs_io::{Arrived, Bound, Link, Spawner, Started, Store};
use cs_os::{Children, FileStore, UdpLink};
use std::fs::{self, Permissions};
use std::net::{IpAddr, Ipv4Addr, Ipv6Addr};
use std::os::unix::fs::{PermissionsExt, symlink};
use std::process::{self, ExitCode};
use std::time::Instant;
use std::{env, io};

const NODE: NodeId = NodeId { shard: 1, index: 2 };

const CLIENT: NodeId = NodeId {
    shard: CLIENT_SHARD,
    index: 3,
};

fn main(rt: HostRuntime) -> io::Result<ExitCode> {
    if env::args(&rt)?.count() > 1 {
        return Ok(ExitCode::from(7));
    }
    try_files(&rt)?;
    try_modes(&rt)?;
    try_socket(&rt)?;
    try_hosts(&rt)?;
    try_child(&rt)?;
    Ok(ExitCode::SUCCESS)
}

fn try_files(rt: &HostRuntime) -> io::Result<()> {
    let mut store = FileStore::new(rt, rt.alloc());
    let mut into = Vec::new(rt.alloc());
    println!(rt; "absent: {:?}", store.load("none", 9, &mut into))?;
    println!(rt; "saved: {:?}", store.save("file", b"one"))?;
    println!(rt; "saved: {:?}", store.save("file", b"four"))?;
    println!(rt;
        "loaded: {:?} {}",
        store.load("file", 4, &mut into),
        into.len()
    )?;
    println!(rt;
        "too long: {:?} {}",
        store.load("file", 3, &mut into),
        into.len()
    )?;
    println!(rt; "no place: {:?}", store.save("none/file", b"five"))?;
    Ok(())
}

fn write_readable(rt: &HostRuntime, name: &str) -> io::Result<()> {
    fs::write(rt, name, "old")?;
    fs::set_permissions(rt, name, Permissions::from_mode(0o644))
}

fn print_saved(rt: &HostRuntime, what: &str) -> io::Result<()> {
    let saved = FileStore::new(rt, rt.alloc()).save("keys", b"secret");
    let mode = fs::metadata(rt, "keys")?.permissions().mode() & 0o777;
    let left = fs::exists(rt, "keys.new")?;
    println!(rt; "over {what}: {saved:?} {mode:o} {left}")
}

// A key file is its owner's alone, whatever was there and beside it.
fn try_modes(rt: &HostRuntime) -> io::Result<()> {
    write_readable(rt, "keys")?;
    print_saved(rt, "a file")?;
    write_readable(rt, "keys.new")?;
    print_saved(rt, "what is left")?;
    write_readable(rt, "target")?;
    symlink(rt, "target", "keys.new")?;
    print_saved(rt, "a link")?;
    let target = fs::read_to_string(rt, "target")?;
    let mode = fs::metadata(rt, "target")?.permissions().mode() & 0o777;
    println!(rt; "its target: {target} {mode:o}")
}

// A base port that other processes that run this don't have.
fn own_base_port(rt: &HostRuntime) -> u16 {
    1_024 + (process::id(rt.process()) % 60_000) as u16
}

fn try_socket(rt: &HostRuntime) -> io::Result<()> {
    let base_port = own_base_port(rt);
    let mut node = UdpLink::new(rt, rt.alloc());
    let mut client = UdpLink::new(rt, rt.alloc());
    let mut buf = vec![in rt.alloc(); 0u8; MOST_DATAGRAM + 1]?;
    println!(rt; "unbound: {:?}", client.send(NODE, b"lost"))?;
    println!(rt;
        "bound: {:?} {:?}",
        node.bind(NODE, base_port),
        client.bind(CLIENT, base_port)
    )?;
    println!(rt;
        "bound twice: {:?}",
        UdpLink::new(rt, rt.alloc()).bind(NODE, base_port)
    )?;
    println!(rt; "nothing came: {:?}", node.receive(&mut buf))?;
    println!(rt; "sent: {:?}", client.send(NODE, b"hello"))?;
    println!(rt; "came: {:?}", node.receive(&mut buf))?;
    println!(rt; "sent none: {:?}", client.send(NODE, b""))?;
    println!(rt; "came: {:?}", node.receive(&mut buf))?;
    let long = vec![in rt.alloc(); 7u8; MOST_DATAGRAM + 2]?;
    println!(rt; "sent long: {:?}", client.send(NODE, &long))?;
    println!(rt; "came: {:?}", node.receive(&mut buf))?;
    let (ticks, doubled) = count_ticks(&mut client, &mut node, &mut buf);
    println!(rt; "ticks: {ticks} {doubled}")
}

// A datagram always waits. How many ticks come nevertheless, up to five, and whether one follows
// another.
fn count_ticks<L: Link>(client: &mut L, node: &mut L, buf: &mut [u8]) -> (u8, bool)
    requires { length buf.old ≡ MOST_DATAGRAM + 1 }
{
    let mut ticks = 0u8;
    let mut ticked = false;
    client.send(NODE, b"first");
    for _ in 0..1_000_000 {
        client.send(NODE, b"again");
        if node.receive(buf) != Arrived::Tick {
            ticked = false;
        } else if ticked || ticks == 5 {
            return (ticks, ticked);
        } else {
            ticks = ticks.saturating_add(1);
            ticked = true;
        }
    }
    (ticks, false)
}

// Nodes and clients at other addresses of this machine, and ticks that are further apart.
fn try_hosts(rt: &HostRuntime) -> io::Result<()> {
    let base_port = own_base_port(rt);
    let four = [
        (NODE, IpAddr::V4(Ipv4Addr::new(127, 0, 0, 2))),
        (CLIENT, IpAddr::V4(Ipv4Addr::new(127, 0, 0, 3))),
    ];
    let here = UdpLink::new(rt, rt.alloc()).bind(NODE, base_port);
    println!(rt; "at 127.0.0.1: {here:?}")?;
    println!(rt;
        "at 127.0.0.2 and 127.0.0.3: {:?}",
        come_between(rt, &four, base_port)?
    )?;
    let six = [
        (NODE, IpAddr::V6(Ipv6Addr::LOCALHOST)),
        (CLIENT, IpAddr::V6(Ipv6Addr::LOCALHOST)),
    ];
    let came = come_between(rt, &six, base_port)?;
    println!(rt;
        "at ::1, or there is none: {}",
        came.is_none() || came == Some(Arrived::Datagram(5))
    )?;
    let documents = [(NODE, IpAddr::V4(Ipv4Addr::new(192, 0, 2, 1)))];
    println!(rt;
        "at an address of nobody: {:?}",
        come_between(rt, &documents, base_port)?
    )?;
    try_pace(rt, base_port)
}

// What comes of a datagram from the client to the node, where both are bound at these addresses.
fn come_between(
    rt: &HostRuntime,
    hosts: &[(NodeId, IpAddr)],
    base_port: u16,
) -> io::Result<Option<Arrived>> {
    let mut node = UdpLink::new(rt, rt.alloc());
    let mut client = UdpLink::new(rt, rt.alloc());
    let mut buf = vec![in rt.alloc(); 0u8; MOST_DATAGRAM + 1]?;
    node.place(hosts, 20);
    client.place(hosts, 20);
    if node.bind(NODE, base_port) == Bound::Failed
        || client.bind(CLIENT, base_port) == Bound::Failed
    {
        return Ok(None);
    }
    client.send(NODE, b"hello");
    Ok(Some(node.receive(&mut buf)))
}

// A link that is told of ticks 200 milliseconds apart gives the first one no sooner.
fn try_pace(rt: &HostRuntime, base_port: u16) -> io::Result<()> {
    let mut node = UdpLink::new(rt, rt.alloc());
    let mut buf = vec![in rt.alloc(); 0u8; MOST_DATAGRAM + 1]?;
    node.place(&[], 200);
    node.bind(NODE, base_port);
    let start = Instant::now(rt)?;
    let came = node.receive(&mut buf);
    let passed = Instant::now(rt)?.duration_since(start).as_millis();
    println!(rt; "a slow tick: {came:?} {}", passed >= 190)
}

fn try_child(rt: &HostRuntime) -> io::Result<()> {
    let mut children = Children::new(rt, rt.alloc());
    let mut words = Vec::new(rt.alloc());
    words.push(String::from_str(rt.alloc(), "child")?)?;
    let started = children.start(&words);
    println!(rt; "started: {started:?}")?;
    if let Started::Started(number) = started {
        println!(rt; "ended: {:?}", children.wait(number))?;
    }
    Ok(())
}

//! A UDP socket of this computer.
ghost use Rattle.std.specs.Prelude.{◌≡◌, ◌≤◌, None, IfOk, IfSome, length};

use crate::pace::{Next, Pace, TICK};
use crate::ports::address_of;
use crate::timed_socket::TimedSocket;
use cs_base::NodeId;
use cs_io::{Arrived, Bound, Link, Placed, Sent};
use std::alloc::Global;
use std::io::{self, ErrorKind};
use std::net::{IpAddr, Net, SocketAddr};
use std::time::{Clock, Instant};

/// A socket at the address and the port of a node or client. It gives a tick whenever so many
/// milliseconds have passed since the last one as it was told, or else 20, whether or not datagrams
/// wait.
#[derive(Drop)]
pub struct UdpLink<'a, R: Net + Clock> {
    system: &'a R,
    alloc: Global,
    // Where nodes and clients are, but for those on this computer's loopback.
    hosts: Vec<(NodeId, IpAddr)>,
    socket: Option<TimedSocket>,
    base_port: u16,
    pace: Pace,
    // When the last tick was given, until the clock fails.
    ticked: Option<Instant>,
    missed: u64,
    faults: u64,
}

impl<'a, R: Net + Clock> UdpLink<'a, R> {
    pub fn new(system: &'a R, alloc: Global) -> Self {
        UdpLink {
            system,
            alloc,
            hosts: Vec::new(alloc),
            socket: None,
            base_port: 0,
            pace: Pace::new(TICK),
            ticked: None,
            missed: 0,
            faults: 0,
        }
    }
}

fn receive_from(
    socket: &Option<TimedSocket>,
    buf: &mut [u8],
    milliseconds: u64,
) -> io::Result<Option<usize>>
    ensures { IfOk result (λ came. IfSome came (λ count. count ≤ length buf.new)) }
{
    match socket {
        Some(socket) => socket.receive(buf, milliseconds),
        None => Err(io::Error::from(ErrorKind::NotConnected)),
    }
}

fn send_from(socket: &Option<TimedSocket>, to: SocketAddr, bytes: &[u8]) -> io::Result<usize> {
    match socket {
        Some(socket) => socket.send(to, bytes),
        None => Err(io::Error::from(ErrorKind::NotConnected)),
    }
}

fn asks_again(error: &io::Error) -> bool {
    error.kind() == ErrorKind::WouldBlock || error.kind() == ErrorKind::Interrupted
}

impl<R: Net + Clock> UdpLink<'_, R> {
    // A socket at the address of a node or client.
    fn open(&self, me: NodeId) -> io::Result<TimedSocket> {
        TimedSocket::bind(self.system, address_of(&self.hosts, self.base_port, me)?)
    }

    // The time now. A clock that failed is a fault, and isn't asked again.
    fn read_clock(&mut self) -> Option<Instant>
        ensures missed { self.new.missed ≡ self.old.missed }
        ensures faults { self.old.faults ≤ self.new.faults }
    {
        match Instant::now(self.system) {
            Ok(now) => Some(now),
            Err(_) => {
                self.faults = self.faults.saturating_add(1);
                None
            }
        }
    }

    // How many milliseconds have passed since the last tick, if the clock tells that.
    fn passed(&mut self) -> Option<u64>
        ensures missed { self.new.missed ≡ self.old.missed }
        ensures faults { self.old.faults ≤ self.new.faults }
    {
        let ticked = self.ticked?;
        let Some(now) = self.read_clock() else {
            self.ticked = None;
            return None;
        };
        let passed = now.duration_since(ticked).as_millis();
        Some(u64::try_from(passed).unwrap_or(u64::MAX))
    }

    // The length of a datagram, or none where a tick is due. An interrupted wait is made again.
    fn wait(&mut self, buf: &mut [u8]) -> io::Result<Option<usize>>
        ensures count { IfOk result (λ came. IfSome came (λ count. count ≤ length buf.new)) }
        ensures missed { self.new.missed ≡ self.old.missed }
        ensures faults { self.old.faults ≤ self.new.faults }
    {
        for _ in 0..u64::MAX {
            let passed = self.passed();
            let Next::Look(rest) = self.pace.next(passed) else {
                return Ok(None);
            };
            match receive_from(&self.socket, buf, rest) {
                Err(error) if asks_again(&error) => {}
                came => return came,
            }
        }
        Err(io::Error::from(ErrorKind::Interrupted))
    }

    // From here on the time to the next tick is counted.
    fn begin_again(&mut self)
        ensures missed { self.new.missed ≡ self.old.missed }
        ensures faults { self.old.faults ≤ self.new.faults }
    {
        self.pace.begin_again();
        if self.ticked.is_some() {
            self.ticked = self.read_clock();
        }
    }
}

impl<R: Net + Clock> Link for UdpLink<'_, R> {
    ghost told = { λ l. record {
      bound = None;
      placed = None;
      left = None;
      offered = None;
      missed = l.missed;
    } };

    ghost faults = { λ l. l.faults };

    fn place(&mut self, hosts: &[(NodeId, IpAddr)], tick: u64) -> Placed {
        match Vec::from_slice(self.alloc, hosts) {
            Ok(kept) => {
                self.hosts = kept;
                self.socket = None;
                self.pace = Pace::new(tick);
                Placed::Done
            }
            Err(_) => Placed::Memory,
        }
    }

    fn bind(&mut self, me: NodeId, base_port: u16) -> Bound {
        self.base_port = base_port;
        self.pace.begin_again();
        self.ticked = self.read_clock();
        match self.open(me) {
            Ok(socket) => {
                self.socket = Some(socket);
                Bound::Done
            }
            Err(_) => {
                self.socket = None;
                self.faults = self.faults.saturating_add(1);
                Bound::Failed
            }
        }
    }

    fn receive(&mut self, buf: &mut [u8]) -> Arrived {
        match self.wait(buf) {
            Ok(Some(count)) => {
                self.missed = 0;
                self.pace.count_datagram();
                Arrived::Datagram(count)
            }
            Ok(None) => {
                self.missed = 0;
                self.begin_again();
                Arrived::Tick
            }
            Err(_) => {
                self.missed = self.missed.saturating_add(1);
                self.faults = self.faults.saturating_add(1);
                Arrived::Failed
            }
        }
    }

    fn send(&mut self, to: NodeId, bytes: &[u8]) -> Sent {
        let sent = match address_of(&self.hosts, self.base_port, to) {
            Ok(to) => send_from(&self.socket, to, bytes),
            Err(error) => Err(error),
        };
        match sent {
            Ok(count) if count == bytes.len() => Sent::Done,
            _ => {
                self.faults = self.faults.saturating_add(1);
                Sent::Failed
            }
        }
    }
}

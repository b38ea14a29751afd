//! What datagrams come in by and go out by, by what is left and what was offered, and by how often
//! it failed.
ghost use Rattle.std.specs.Prelude.{◌≡◌, ◌+◌, ℕ, length};
ghost use Rattle.cs_base.specs.Outside.{HasCause};
ghost use Rattle.cs_base.specs.declared.limits.TheConstants.{MOST_DATAGRAM};
ghost use Rattle.cs_io.specs.Told.{Stays};
ghost use Rattle.cs_io.specs.Link.{Binds, TellsHosts, Frees, Receives, LinkSends, missed_after};
ghost use Rattle.cs_io.specs.Outside.{LinkTold};

use cs_base::{NodeId, Sequence};
use std::net::IpAddr;

/// What came of binding a link.
#[derive(Clone, Copy, Debug, PartialEq, Eq)]
pub enum Bound {
    /// The link is bound.
    Done,
    /// The link failed, and isn't bound.
    Failed,
}

/// What came of telling a link where nodes and clients are.
#[derive(Clone, Copy, Debug, PartialEq, Eq)]
pub enum Placed {
    /// The link goes by that from now on, and isn't bound.
    Done,
    /// The link is as it was, for want of memory.
    Memory,
}

/// What a receive gave.
#[derive(Clone, Copy, Debug, PartialEq, Eq)]
pub enum Arrived {
    /// A datagram, whose first bytes stand in front of the buffer, so many.
    Datagram(usize),
    /// Some time has passed.
    Tick,
    /// Nothing is left to come.
    End,
    /// The link failed, and nothing was taken.
    Failed,
}

/// What came of sending a datagram.
#[derive(Clone, Copy, Debug, PartialEq, Eq)]
pub enum Sent {
    /// The datagram went out. It may still be lost.
    Done,
    /// The link failed, and the datagram may be lost.
    Failed,
    /// The datagram wasn't offered, for want of memory.
    Memory,
}

/// What a link gives: the bytes of a datagram, or the word that some time has passed.
#[derive(Drop)]
pub enum MemInput {
    Datagram(Sequence<u8>),
    Tick,
}

/// What datagrams come in by and go out by.
pub trait Link {
    /// What the link has told so far: what it is bound as, where it was told that nodes and clients
    /// are, the inputs that are left and all that was offered to be sent, each where it tells that;
    /// and how many receives in a row have failed.
    ghost told: { Self → LinkTold };

    /// How often the link has failed, up to 2^64 - 1.
    ghost faults: { Self → ℕ };

    /// Tells the link where nodes and clients are, and how many milliseconds lie between its ticks.
    /// It has to be bound anew. Who isn't named is on this machine, as all are where this is never
    /// called.
    fn place(&mut self, hosts: &[(NodeId, IpAddr)], tick: u64) -> Placed
        ensures place { TellsHosts (told self.old).placed (told self.new).placed (hosts.now, tick) result }
        ensures bound { Frees (told self.old).bound (told self.new).bound result }
        ensures left { Stays (told self.old).left (told self.new).left }
        ensures offered { Stays (told self.old).offered (told self.new).offered }
        ensures missed { (told self.new).missed ≡ (told self.old).missed }
        ensures faults { faults self.new ≡ faults self.old };

    /// Binds the link as that of a node or client, of a deployment whose ports are counted from the
    /// base port.
    fn bind(&mut self, me: NodeId, base_port: u16) -> Bound
        ensures place { Binds (told self.old).bound (told self.new).bound me base_port result }
        ensures placed { Stays (told self.old).placed (told self.new).placed }
        ensures left { Stays (told self.old).left (told self.new).left }
        ensures offered { Stays (told self.old).offered (told self.new).offered }
        ensures missed { (told self.new).missed ≡ (told self.old).missed }
        ensures cause { HasCause (faults self.old) (faults self.new) (result ≡ Bound.Failed) };

    /// Takes the first input that is left. The buffer has a byte more than a datagram may have, so
    /// that one that is too long is seen to be.
    fn receive(&mut self, buf: &mut [u8]) -> Arrived
        requires { length buf.old ≡ MOST_DATAGRAM + 1 }
        ensures input { Receives (told self.old).left (told self.new).left buf.new result }
        ensures bound { Stays (told self.old).bound (told self.new).bound }
        ensures placed { Stays (told self.old).placed (told self.new).placed }
        ensures offered { Stays (told self.old).offered (told self.new).offered }
        ensures missed { (told self.new).missed ≡ missed_after (told self.old).missed result }
        ensures cause { HasCause (faults self.old) (faults self.new) (result ≡ Arrived.Failed) };

    /// Offers a datagram to be sent.
    fn send(&mut self, to: NodeId, bytes: &[u8]) -> Sent
        ensures datagram { LinkSends (told self.old).offered (told self.new).offered to bytes.now result }
        ensures bound { Stays (told self.old).bound (told self.new).bound }
        ensures placed { Stays (told self.old).placed (told self.new).placed }
        ensures left { Stays (told self.old).left (told self.new).left }
        ensures missed { (told self.new).missed ≡ (told self.old).missed }
        ensures cause { HasCause (faults self.old) (faults self.new) (result ≡ Sent.Failed) };
}

//! A link in memory.
ghost use Rattle.std.specs.Prelude.{◌≡◌, ◌≢◌, ◌+◌, ◌≤◌, ◌++◌, ◌∷◌, [], IsTrue, length, take, map, vec_len, Some, None, OnOk, OnErr};
ghost use Rattle.cs_base.specs.Outside.{HasCause};
ghost use Rattle.cs_base.specs.declared.limits.TheConstants.{MOST_DATAGRAM};
ghost use Rattle.cs_io.specs.Told.{Stays};
ghost use Rattle.cs_io.specs.Link.{Binds, Receives, LinkSends, missed_after};

use crate::link::{Arrived, Bound, Link, MemInput, Placed, Sent};
use cs_base::{Failures, Memory, NodeId, Sequence};
use std::alloc::Global;
use std::net::IpAddr;

/// A link that gives the inputs that it was made of, and keeps what it is offered. The listed calls
/// fail, and no others, unless memory runs out.
#[derive(Drop)]
pub struct MemLink {
    alloc: Global,
    inputs: Vec<MemInput>,
    taken: usize,
    placed: Option<(Sequence<(NodeId, IpAddr)>, u64)>,
    bound: Option<(NodeId, u16)>,
    offered: Sequence<(NodeId, Sequence<u8>)>,
    missed: u64,
    failures: Failures,
    ghost in_range: { taken ≤ vec_len inputs },
}

impl MemLink {
    ghost use Rattle.cs_base.specs.Failures.{uncalled};
    ghost use Rattle.cs_io.specs.InMemory.{seen_input, link_failures};

    /// A link of these inputs, bound as nothing and told of no places, whose calls of these numbers,
    /// counted from 0, fail.
    pub fn new(alloc: Global, inputs: Vec<MemInput>, fails: Vec<u32>) -> Self
        ensures bound { (⟦<MemLink as Link>⟧.told result).bound ≡ Some None }
        ensures placed { (⟦<MemLink as Link>⟧.told result).placed ≡ Some None }
        ensures left { (⟦<MemLink as Link>⟧.told result).left ≡ Some (map seen_input inputs.items) }
        ensures offered { (⟦<MemLink as Link>⟧.told result).offered ≡ Some [] }
        ensures missed { (⟦<MemLink as Link>⟧.told result).missed ≡ 0 }
        ensures faults { ⟦<MemLink as Link>⟧.faults result ≡ 0 }
        ensures failures { link_failures result ≡ uncalled fails.items }
    {
        MemLink {
            alloc,
            inputs,
            taken: 0,
            placed: None,
            bound: None,
            offered: Sequence::new(alloc),
            missed: 0,
            failures: Failures::new(fails),
        }
    }

    /// What the link is bound as.
    pub fn bound(&self) -> Option<(NodeId, u16)>
        ensures { (⟦<MemLink as Link>⟧.told self.now).bound ≡ Some result }
    {
        self.bound
    }

    /// Where it was told that nodes and clients are, and the milliseconds between ticks.
    pub fn placed(&self) -> &Option<(Sequence<(NodeId, IpAddr)>, u64)>
        ensures { (⟦<MemLink as Link>⟧.told self.now).placed ≡ Some result.now }
    {
        &self.placed
    }

    /// All that was offered to be sent, with its addressee.
    pub fn offered(&self) -> &[(NodeId, Sequence<u8>)]
        ensures { (⟦<MemLink as Link>⟧.told self.now).offered ≡ Some result.now }
    {
        self.offered.as_slice()
    }

    /// The inputs that are left, as they were given.
    pub fn left(&self) -> &[MemInput]
        ensures { (⟦<MemLink as Link>⟧.told self.now).left ≡ Some (map seen_input result.now) }
    {
        let (_, left) = self.inputs.split_at(self.taken);
        left
    }

    // Keeps a datagram that is offered.
    fn keep(&mut self, to: NodeId, bytes: &[u8]) -> Result<(), Memory>
        ensures ok { OnOk result (self.new
            ≡ record self.old { offered = self.old.offered ++ (to, bytes.now) ∷ [] }) }
        ensures err { OnErr result (self.new ≡ self.old) }
    {
        let kept = Vec::from_slice(self.alloc, bytes)?;
        self.offered.push((to, Sequence::from_vec(kept)))?;
        Ok(())
    }
}

// Copies as many of the bytes as there is room for to the front of a buffer.
fn fill(buf: &mut [u8], bytes: &[u8]) -> usize
    ensures within { result ≤ length buf.old }
    ensures filled { take result buf.new ≡ take (length buf.old) bytes.now }
{
    let count = bytes.len().min(buf.len());
    let (front, _) = bytes.split_at(count);
    let (room, _) = buf.split_at_mut(count);
    room.copy_from_slice(front);
    count
}

impl Link for MemLink {
    ghost use Rattle.cs_base.specs.Failures.{CountsCall, call_is_listed};
    ghost use Rattle.cs_io.specs.InMemory.{link_told, link_failures, link_faults};

    ghost told = { link_told };

    ghost faults = { link_faults };

    fn place(&mut self, hosts: &[(NodeId, IpAddr)], tick: u64) -> Placed {
        match Vec::from_slice(self.alloc, hosts) {
            Ok(kept) => {
                self.placed = Some((Sequence::from_vec(kept), tick));
                self.bound = None;
                Placed::Done
            }
            Err(_) => Placed::Memory,
        }
    }

    fn bind(&mut self, me: NodeId, base_port: u16) -> Bound
        ensures place { Binds (link_told self.old).bound (link_told self.new).bound me base_port result }
        ensures placed { Stays (link_told self.old).placed (link_told self.new).placed }
        ensures left { Stays (link_told self.old).left (link_told self.new).left }
        ensures offered { Stays (link_told self.old).offered (link_told self.new).offered }
        ensures missed { (link_told self.new).missed ≡ (link_told self.old).missed }
        ensures cause { HasCause (link_faults self.old) (link_faults self.new)
            (result ≡ Bound.Failed) }

        // Exactly the listed calls fail.
        ensures counted { CountsCall (link_failures self.old) (link_failures self.new)
            (result ≡ Bound.Failed) }
    {
        if self.failures.is_due() {
            self.bound = None;
            return Bound::Failed;
        }
        self.bound = Some((me, base_port));
        Bound::Done
    }

    fn receive(&mut self, buf: &mut [u8]) -> Arrived
        requires { length buf.old ≡ MOST_DATAGRAM + 1 }
        ensures input { Receives (link_told self.old).left (link_told self.new).left buf.new result }
        ensures bound { Stays (link_told self.old).bound (link_told self.new).bound }
        ensures placed { Stays (link_told self.old).placed (link_told self.new).placed }
        ensures offered { Stays (link_told self.old).offered (link_told self.new).offered }
        ensures missed { (link_told self.new).missed ≡ missed_after (link_told self.old).missed result }
        ensures cause { HasCause (link_faults self.old) (link_faults self.new)
            (result ≡ Arrived.Failed) }

        // Exactly the listed calls fail.
        ensures counted { CountsCall (link_failures self.old) (link_failures self.new)
            (result ≡ Arrived.Failed) }
    {
        if self.failures.is_due() {
            self.missed = self.missed.saturating_add(1);
            return Arrived::Failed;
        }
        self.missed = 0;
        let Some(input) = self.inputs.get(self.taken) else {
            return Arrived::End;
        };
        self.taken += 1;
        match input {
            MemInput::Datagram(bytes) => Arrived::Datagram(fill(buf, bytes.as_slice())),
            MemInput::Tick => Arrived::Tick,
        }
    }

    fn send(&mut self, to: NodeId, bytes: &[u8]) -> Sent
        ensures datagram { LinkSends
            (link_told self.old).offered (link_told self.new).offered to bytes.now result }
        ensures bound { Stays (link_told self.old).bound (link_told self.new).bound }
        ensures placed { Stays (link_told self.old).placed (link_told self.new).placed }
        ensures left { Stays (link_told self.old).left (link_told self.new).left }
        ensures missed { (link_told self.new).missed ≡ (link_told self.old).missed }
        ensures cause { HasCause (link_faults self.old) (link_faults self.new)
            (result ≡ Sent.Failed) }

        // The listed calls fail, unless memory runs out, and no others.
        ensures counted { CountsCall (link_failures self.old) (link_failures self.new)
            (IsTrue (call_is_listed (link_failures self.old))) }
        ensures listed { result ≡ Sent.Failed → IsTrue (call_is_listed (link_failures self.old)) }
        ensures failed { IsTrue (call_is_listed (link_failures self.old)) → result ≢ Sent.Done }
    {
        let due = self.failures.is_due();
        match self.keep(to, bytes) {
            Err(Memory) => Sent::Memory,
            Ok(()) if due => Sent::Failed,
            Ok(()) => Sent::Done,
        }
    }
}

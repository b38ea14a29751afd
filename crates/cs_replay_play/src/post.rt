//! What was sent, by its numbers.
ghost use Rattle.std.specs.Prelude.{◌≡◌, ◌≤◌, ◌<◌, ◌+◌, ◌^◌, ◌∷◌, ◌++◌, [], true, length, drop, option_copied, slice_get, OnOk, IsErrOf};
ghost use Rattle.cs_replay_rules.specs.Play.{first_left, size_of, most_sent};
ghost use Rattle.cs_node_rules.specs.World.{was_sent};
ghost use Rattle.cs_replay_play.specs.Post.{parcels_with_arrived, tail_of};

use crate::parcel::Parcel;
use cs_base::{MOST_SENT, Memory, NodeId};
use indexmap::IndexMap;
use std::alloc::{AllocFailed, Global};
use std::marker::Model;

/// Why a datagram was not sent.
#[derive(Clone, Copy, Debug, PartialEq, Eq)]
pub enum SendError {
    /// All datagrams together would have more bytes than may be sent.
    Full,
    /// There was not enough memory.
    Memory,
}

impl<T: Drop> From<AllocFailed<T>> for SendError {
    ghost use Rattle.cs_replay_play.specs.declared.post.SendError.TheVariants.{Memory as NoMemory};

    ghost from_gives = { λ _ e. e ≡ NoMemory };

    fn from(_e: AllocFailed<T>) -> SendError {
        SendError::Memory
    }
}

/// The last bytes of a datagram.
type Tail = [u8; 32];

/// The datagrams that honest nodes have sent. The number of a datagram is its place.
#[derive(Drop)]
pub struct Post {
    parcels: Vec<Parcel>,
    // The bytes of all of them.
    size: u64,
    // So many of the first have all come to their addressees.
    delivered: usize,
    // For each tail, the number of a datagram that ends so: what was sent is found by it.
    numbers: IndexMap<Tail, u64>,
}

impl Model for Post {
    ghost use Rattle.std.specs.Prelude.{List};
    ghost use Rattle.cs_node_rules.specs.Lines.{Parcel as Sent};
    ghost use Rattle.cs_replay_play.specs.Post.{IsKeptPost};

    ghost Value = { List Sent };

    ghost view = { λ p. p.parcels.items };

    ghost invariant = { λ p. IsKeptPost p.parcels.items p.size p.delivered p.numbers.entries };
}

impl Post {
    /// Nothing was sent yet.
    pub fn new(alloc: Global) -> Self
        ensures { result ≡ [] }
    {
        Post {
            parcels: Vec::new(alloc),
            size: 0,
            delivered: 0,
            numbers: IndexMap::new(alloc),
        }
    }

    /// How many datagrams were sent.
    pub fn len(&self) -> usize
        ensures { result ≡ length self.now }
    {
        self.parcels.len()
    }

    /// The bytes of all of them.
    pub fn size(&self) -> u64
        ensures { result ≡ size_of self.now }
    {
        self.size
    }

    /// The datagram of this number.
    pub fn get(&self, number: u64) -> Option<&Parcel>
        ensures { option_copied result ≡ slice_get self.now number }
    {
        self.parcels.get(number as usize)
    }

    /// The datagrams from this number on.
    pub fn sent_since(&self, number: usize) -> &[Parcel]
        requires { number ≤ length self.now }
        ensures sent { result.now ≡ drop number self.now }
        ensures few { number + length result.now < 2 ^ 64 }
    {
        &self.parcels[number..]
    }

    /// Whether exactly this datagram was sent. It goes through all only where two datagrams end
    /// alike.
    pub fn was_sent(&self, from: NodeId, to: NodeId, bytes: &[u8]) -> bool
        ensures { result ≡ was_sent from to bytes.now self.now }
    {
        match self.numbers.get(&tail_of(bytes)) {
            None => false,
            Some(number) => {
                let parcels = self.parcels.as_slice();
                is_at(parcels, *number, from, to, bytes) || is_among(parcels, from, to, bytes)
            }
        }
    }

    /// Sends a datagram, unless all together would have more bytes than may be sent.
    pub fn send(&mut self, parcel: Parcel) -> Result<(), SendError>
        ensures sent { OnOk result (self.new ≡ self.old ++ parcel ∷ []) }
        ensures within { OnOk result (size_of self.new ≤ most_sent) }
        ensures full { IsErrOf result SendError.Full
            → most_sent < size_of self.old + length parcel.bytes }
    {
        let length = parcel.bytes().len() as u64;
        if length > MOST_SENT - self.size {
            return Err(SendError::Full);
        }
        let number = self.parcels.len() as u64;
        self.numbers.insert(tail_of(parcel.bytes()), number)?;
        self.parcels.push(parcel)?;
        self.size += length;
        Ok(())
    }

    /// Notes that the datagram of this number came to its addressee.
    pub fn arrive(&mut self, number: u64)
        ensures { self.new ≡ parcels_with_arrived number (slice_get self.old number) self.old }
    {
        let place = number as usize;
        if place < self.parcels.len() {
            self.parcels[place].arrive();
        }
    }

    /// The number of the first datagram that never came to its addressee. Over all calls it looks
    /// at each datagram once.
    pub fn first_left(&mut self) -> Option<u64>
        ensures left { result ≡ first_left 0 self.old }
        ensures same { self.new ≡ self.old }
    {
        while self.delivered < self.parcels.len() {
            if !self.parcels[self.delivered].has_arrived() {
                return Some(self.delivered as u64);
            }
            self.delivered += 1;
        }
        None
    }
}

// The last 32 bytes of a datagram, where its tag stands; zeros, where there are fewer.
fn tail_of(bytes: &[u8]) -> Tail
    ensures { result ≡ tail_of bytes.now }
{
    let mut tail = [0; 32];
    if bytes.len() >= 32 {
        tail.copy_from_slice(&bytes[bytes.len() - 32..]);
    }
    tail
}

// Whether the datagram of this number is exactly this one.
fn is_at(parcels: &[Parcel], number: u64, from: NodeId, to: NodeId, bytes: &[u8]) -> bool
    ensures { result ≡ true → was_sent from to bytes.now parcels.now ≡ true }
{
    match parcels.get(number as usize) {
        Some(parcel) => parcel.is(from, to, bytes),
        None => false,
    }
}

fn is_among(parcels: &[Parcel], from: NodeId, to: NodeId, bytes: &[u8]) -> bool
    ensures { result ≡ was_sent from to bytes.now parcels.now }
{
    parcels.iter().any(|parcel| parcel.is(from, to, bytes))
}

//! One datagram that was sent.
ghost use Rattle.std.specs.Prelude.{◌≡◌, false};
ghost use Rattle.cs_replay_rules.specs.Play.{arrived};
ghost use Rattle.cs_replay_play.specs.Post.{is_parcel};

use cs_base::{NodeId, Sequence};
use std::marker::Model;

/// A datagram that an honest node sent.
#[derive(Drop)]
pub struct Parcel {
    from: NodeId,
    to: NodeId,
    bytes: Sequence<u8>,
    arrived: bool,
}

impl Model for Parcel {
    ghost use Rattle.cs_node_rules.specs.Lines.{Parcel as Sent};

    ghost Value = { Sent };

    ghost view = { λ p. record { from = p.from; to = p.to; bytes = p.bytes; arrived = p.arrived } };
}

impl Parcel {
    /// A datagram that didn't come to its addressee yet.
    pub fn new(from: NodeId, to: NodeId, bytes: Sequence<u8>) -> Self
        ensures { result ≡ record { from = from; to = to; bytes = bytes; arrived = false } }
    {
        Parcel {
            from,
            to,
            bytes,
            arrived: false,
        }
    }

    /// The node that sent it.
    pub fn from(&self) -> NodeId
        ensures { result ≡ self.now.from }
    {
        self.from
    }

    /// Its addressee.
    pub fn to(&self) -> NodeId
        ensures { result ≡ self.now.to }
    {
        self.to
    }

    /// The datagram.
    pub fn bytes(&self) -> &[u8]
        ensures { result.now ≡ self.now.bytes }
    {
        self.bytes.as_slice()
    }

    /// Whether it is exactly this datagram.
    pub fn is(&self, from: NodeId, to: NodeId, bytes: &[u8]) -> bool
        ensures { result ≡ is_parcel from to bytes.now self.now }
    {
        let spoke = self.from == from;
        spoke && (self.to == to && self.bytes() == bytes)
    }

    /// Whether it came to its addressee.
    pub fn has_arrived(&self) -> bool
        ensures { result ≡ self.now.arrived }
    {
        self.arrived
    }

    /// Notes that it came to its addressee.
    pub fn arrive(&mut self)
        ensures { self.new ≡ arrived self.old }
    {
        self.arrived = true;
    }
}

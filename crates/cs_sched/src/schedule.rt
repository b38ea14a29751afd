//! Schedules.
use cs_base::{Config, NodeId, Sequence};
use cs_tx_value::{Digest, Object};

/// What is replayed: a deployment, and what happens to its honest nodes. Each event has the number
/// of its line.
#[derive(Drop)]
pub struct Schedule {
    pub config: Config,
    pub master: Digest,
    pub liars: Sequence<NodeId>,
    pub contracts: Sequence<Sequence<u8>>,
    pub genesis: Sequence<Object>,
    pub events: Sequence<(u64, Event)>,
}

/// One line of a schedule.
#[derive(Drop)]
pub enum Event {
    /// A liar or a client sends a datagram of this kind and body to an honest node.
    Say {
        from: NodeId,
        to: NodeId,
        kind: u8,
        body: Sequence<u8>,
    },
    /// An honest node is given these bytes.
    Inject {
        to: NodeId,
        bytes: Sequence<u8>,
    },
    /// The datagram of this number, of those that honest nodes have sent, comes to its addressee.
    Deliver {
        number: u64,
    },
    /// Time passes at an honest node.
    Tick {
        node: NodeId,
    },
    /// So many times the oldest datagram that never came to its addressee does so.
    Drain {
        times: u64,
    },
}

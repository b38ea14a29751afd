//! What comes in, and what goes out.
use cs_base::{NodeId, Sequence};

/// What a node or a client is given.
#[derive(Clone, Copy, Debug)]
pub enum Input<'a> {
    /// The bytes that came, whatever they are.
    Datagram(&'a [u8]),
    /// Some time has passed.
    Tick,
}

/// A datagram that goes out.
#[derive(Drop)]
pub struct Out {
    pub to: NodeId,
    pub bytes: Sequence<u8>,
}

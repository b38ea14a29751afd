//! What is found in a journal behind what was read of it.

/// What stands at a gate.
#[derive(Clone, Copy, Debug, PartialEq, Eq)]
pub enum Found {
    /// An open gate, and that some time has passed.
    Tick,
    /// An open gate, and a datagram of so many bytes.
    Datagram(usize),
    /// A gate that isn't open, with this byte.
    Gate(u8),
}

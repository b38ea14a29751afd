//! What a session does to the keys that it names.
use cs_tx::Digest;

/// A change of a key's state for a session, which is named by its digest.
#[derive(Clone, Copy, Debug, PartialEq, Eq)]
pub enum Change {
    /// What is free is locked by it.
    Lock(Digest),
    /// What is locked is free again.
    Release,
    /// What is there is used up by it.
    UseUp(Digest),
    /// What is there to be read is read by it.
    Join(Digest),
    /// What is read by it is read by it no more.
    Leave(Digest),
}

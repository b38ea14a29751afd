//! Why an input was dropped.
use cs_wire::OpenError;

/// The first test that an input failed. A dropped input changes nothing.
#[derive(Clone, Copy, Debug, PartialEq, Eq)]
pub enum Cause {
    /// It can't be opened.
    Unopened(OpenError),
    /// The sender asks for a key of another shard.
    Mine,
    /// The sender isn't one who may say this.
    Role,
    /// The session isn't well formed or doesn't concern the shard.
    Malformed,
    /// The slot was chosen before.
    Old,
    /// The slot is too far ahead to be taken, or not there to be told.
    Far,
    /// The sender doesn't lead the view in which it proposes.
    Leader,
    /// The session is in the pool already, or the sender has said the same kind of thing before.
    Repeat,
    /// The vote is on a session that isn't in the pool, and doesn't ask for a vote.
    Unasked,
    /// The transaction isn't approved.
    Denied,
    /// No more sessions may wait.
    Full,
    /// No checkpoint covers the slot.
    NoProof,
}

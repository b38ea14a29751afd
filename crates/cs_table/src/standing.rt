//! What a table says of a session.
use cs_tx::Vote;

/// The vote on a session, and whether the session has locked its anchor now.
#[derive(Clone, Copy, Debug, PartialEq, Eq)]
pub struct Preparation {
    pub vote: Vote,
    pub locked: bool,
}

/// Whether a session was accepted or aborted in a shard.
#[derive(Clone, Copy, Debug, PartialEq, Eq)]
pub enum Standing {
    /// It has used up its anchor.
    Accepted,
    /// It was voted on without being held, or another session has used up its anchor.
    Aborted,
    Open,
}

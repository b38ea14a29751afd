//! What the pool answers.

/// What became of a vote.
#[derive(Clone, Copy, Debug, PartialEq, Eq)]
pub enum Counted {
    /// It counts.
    Counted,
    /// The node has voted on the session before.
    Repeat,
    /// The session is not in the pool.
    NotPooled,
}

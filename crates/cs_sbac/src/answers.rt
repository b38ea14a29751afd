//! What the calls on table and pool answer.
use cs_table::Effect;
use cs_tx::Vote;

/// Whether a new session entered the pool.
#[derive(Clone, Copy, Debug, PartialEq, Eq)]
pub enum Entered {
    /// It waits, as the last one.
    New,
    /// No more sessions may wait.
    Full,
}

/// What the execution of an action came to, and the node's vote, if it voted, with the mark that
/// it asks for the votes of the others.
#[derive(Clone, Copy, Debug, PartialEq, Eq)]
pub struct Outcome {
    pub effect: Effect,
    pub voted: Option<(Vote, bool)>,
}

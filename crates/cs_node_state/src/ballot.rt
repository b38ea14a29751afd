//! Votes that a node has taken.
use cs_base::NodeId;
use cs_tx::Vote;

/// A node's vote on a session, as another node took it.
#[derive(Clone, Copy, Debug, PartialEq, Eq)]
pub struct Ballot {
    pub sender: NodeId,
    pub vote: Vote,
}

//! Sessions of a pool.
use crate::ballot::Ballot;
use cs_base::Sequence;
use cs_tx::Session;

/// A session in the pool of a node: it waits, or it has locked its anchor. The votes that were
/// taken on it stand in the order in which they came, one of each node.
#[derive(Drop)]
pub struct Pooled {
    pub session: Session,
    pub locked: bool,
    pub ballots: Sequence<Ballot>,
}

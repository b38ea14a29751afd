//! What an auditor answers.
use cs_base::Sequence;
use cs_tx::Digest;

/// What an auditor tests, in this order: of each slot of each shard the first five, then of each
/// slot the support, then the history.
#[derive(Clone, Copy, Debug, PartialEq, Eq)]
pub enum Rule {
    /// A leaf's slot is its place in the log.
    Slot,
    /// Its session is well formed, and concerns the shard.
    Form,
    /// The transaction of a Prepare is approved.
    Judge,
    /// Its result is that of executing its entry behind those before.
    Result,
    /// After each 16th slot the head is that of the checkpoint there.
    Head,
    /// All concerned shards voted commit on an accepted session, and one abort on an aborted one.
    Support,
    /// The history has exactly the transactions on which all concerned shards voted commit, and the
    /// ledger takes one after the other.
    History,
}

/// A rule that is broken, and where: in a slot of a shard, or at a place of the history.
#[derive(Clone, Copy, Debug, PartialEq, Eq)]
pub struct Fault {
    pub rule: Rule,
    pub shard: Option<u16>,
    pub slot: u64,
}

/// What an auditor says of a dump.
#[derive(Drop)]
pub enum Verdict {
    /// It is sound, and this is its history.
    Yes(Sequence<Digest>),
    /// This is the first rule that is broken.
    No(Fault),
}

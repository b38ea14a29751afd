//! What is handed in.
use cs_check_rules::{Digest, Proof};

/// A proof that an entry stands in the log of a shard, and the head of a checkpoint which the
/// reader trusts.
#[derive(Drop)]
pub struct Claim {
    pub head: Digest,
    pub proof: Proof,
}

// What was read so far.
#[derive(Drop)]
pub(crate) enum Draft {
    Nothing,
    Headed(Digest),
    Whole(Claim),
}

//! What is kept of a shard's log.

/// How many slots up to the last checkpoint keep their leaves.
pub const KEPT_SLOTS: u64 = 1024;

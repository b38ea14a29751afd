//! How many dummies are asked for.

/// How many dummies of a shard are asked for, from a serial on.
pub const MOST_ASKED: u64 = 64;

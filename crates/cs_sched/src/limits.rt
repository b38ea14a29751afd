//! Limits of schedules alone.

/// The most contracts of a schedule: their texts take 4 MiB at most.
pub const MOST_CONTRACTS: usize = 64;

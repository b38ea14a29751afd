//! The limits of files, each with the reason for its number.

/// The least base port: those below are the system's.
pub const LEAST_BASE_PORT: u64 = 1_024;

/// The greatest base port: the ports of 16 shards and 16 clients above it are ports still.
pub const MOST_BASE_PORT: u64 = 65_000;

/// The most contracts of a site: a book of so many is gone through for each trace.
pub const MOST_CONTRACTS: usize = 64;

/// The most turns of a plan: a node that serves them takes as many inputs.
pub const MOST_TURNS: u64 = 1_000_000;

/// The most calls of a plan, which run one after the other.
pub const MOST_CALLS: usize = 64;

/// The greatest number of a call, 2^63 - 1: TOML has no greater one.
pub const LAST_NUMBER: u64 = 9_223_372_036_854_775_807;

/// The least milliseconds between ticks: on one machine a view lasts as long as its journeys.
pub const LEAST_TICK: u64 = 20;

/// The most milliseconds between ticks: eight of them are more than a minute.
pub const MOST_TICK: u64 = 10_000;

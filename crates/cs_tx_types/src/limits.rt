//! The limits of transactions, sessions and proofs, each with the reason for its number.

/// The most traces of a transaction: 16 of 512 bytes fill one.
pub const MOST_TRACES: u8 = 16;

/// The most inputs, references or outputs of a trace: as many as a list has items.
pub const MOST_TRACE_OBJECTS: u8 = 64;

/// The most parameters or returns of a trace: as many as an object has values.
pub const MOST_TRACE_VALUES: u8 = 16;

/// The most deps of a trace: before the last of 16 traces stand 15.
pub const MOST_DEPS: u8 = 15;

/// The most dummies of a session: of 16 shards that it concerns it has an input in one.
pub const MOST_SESSION_DUMMIES: u8 = 15;

/// The slots that a checkpoint covers.
pub const COVERED: u64 = 16;

/// The last place among the slots that a checkpoint covers.
pub const LAST_PLACE: u8 = 15;

/// The same where each of the 16 slots has 32 actions.
pub const LAST_BATCH_PLACE: u16 = 511;

/// The most hashes of a proof's path: a tree over the leaves of 16 slots is 4 deep.
pub const MOST_PATH: u8 = 4;

/// The same where each of the 16 slots has 32 actions.
pub const MOST_BATCH_PATH: u8 = 9;

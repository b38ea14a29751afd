//! How long the text of a master key is, and how often a call is tried.

/// How many hex digits a master key has.
pub const MASTER_DIGITS: usize = 64;

/// How many bytes the text of a master key has at most: the digits, and a line feed.
pub const MOST_MASTER: usize = 65;

/// How many tries of a call a client makes at most: each names the objects anew, and so many aborted
/// ones in a row aren't by chance.
pub const MOST_TRIES: u64 = 64;

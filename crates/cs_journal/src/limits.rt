//! The limit of a journal.

/// The most bytes of a journal: 1 GiB, which is read again in a minute or so.
pub const MOST_JOURNAL: u64 = 1_073_741_824;

//! The limits of evaluation, each with the reason for its number.

/// The most bytes of a value's encoding: as many as a transaction has, so none could carry more.
pub const MOST_VALUE: usize = 8_192;

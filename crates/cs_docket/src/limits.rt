//! The limits of what a docket keeps, each with the reason for its number.

/// The most denied transactions that are kept: at 8,192 bytes each they take 8 MB.
pub const MOST_DENIED: usize = 1_024;

/// The most approved transactions that are kept: as many as sessions that wait in a pool. At 8,192
/// bytes each they take 34 MB.
pub const MOST_APPROVED: usize = 4_096;

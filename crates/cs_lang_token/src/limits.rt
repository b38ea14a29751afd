//! All limits of the language, each with the reason for its number.

/// The largest number, 2^63 - 1: what 64 bits with a sign hold.
pub const MOST_NUMBER: u128 = 9_223_372_036_854_775_807;

/// The most characters of a name: three times those of the longest reserved word, and more.
pub const MOST_NAME: usize = 32;

/// The most bytes of a byte text: eight digests.
pub const MOST_BYTES: usize = 256;

/// The most digits of a byte text: two for each byte.
pub const MOST_DIGITS: usize = 512;

/// The most bytes of a contract's text: the place of each has 16 bits.
pub const MOST_TEXT: usize = 65_536;

/// The most levels that are open at once: reading goes down a call for each, and its stack stays
/// small.
pub const MOST_LEVELS: u8 = 64;

/// The most operators of a chain without parentheses: as many as levels.
pub const MOST_OPERATORS: usize = 64;

/// The most steps of a path without parentheses: as many as operators, so that both are printed
/// alike.
pub const MOST_STEPS: usize = MOST_OPERATORS;

/// The most items of a list: a loop over one has no more turns, so its cost is known before it
/// runs.
pub const MOST_ITEMS: usize = 64;

/// The most lists in one another: four of 64 items each hold 16,777,216 values.
pub const MOST_LISTS: u8 = 4;

/// The most fields of a type: the number of one has four bits.
pub const MOST_FIELDS: usize = 16;

/// The most types of a contract: the number of one has six bits.
pub const MOST_TYPES: usize = 64;

/// The most methods of a contract: the number of one has six bits.
pub const MOST_METHODS: usize = 64;

/// The turns that a loop over a list is counted with: as many as it has items at most.
pub const LIST_TURNS: u64 = MOST_ITEMS as u64;

/// The most turns of a loop that counts: two of them, one in the other, cost more than a body may.
pub const MOST_TURNS: u64 = 1_024;

/// The most that a body may cost: three loops over lists, one in the other, still fit.
pub const MOST_COST: u64 = 1_000_000;

//! Limits of generated schedules.

/// The greatest size of a generated schedule: its text is then below 8 MiB.
pub const MOST_SIZE: u32 = 1_000;

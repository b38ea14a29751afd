//! The limit of dumps.

/// The most bytes of a dump: 64 MiB, which are read whole before a line is judged. What a schedule
/// of 16 MiB is played to can be longer than the schedule.
pub const MOST_DUMP: usize = 67_108_864;

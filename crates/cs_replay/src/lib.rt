//! Replays a schedule: reads its text, plays its events at the honest nodes, and prints what they
//! execute, the history, and the dump that it hands to an auditor.
#![tactic(auto)]

mod dump;
mod lines;
mod outcome;
mod schedule;
mod source;
mod starting;
mod theorem;

pub use dump::dump_text;
pub use outcome::{ReplayError, Summary};
pub use schedule::{Mode, replay};
pub use source::replay_source;
pub use theorem::{schedules_are_sound, worlds_are_sound};

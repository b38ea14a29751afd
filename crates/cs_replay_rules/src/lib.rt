//! What a replay does with a schedule, as definitions: its events played, the lines that are
//! printed, the dump that is handed to an auditor; and the theorem on the worlds that schedules
//! play.
#![tactic(auto)]

mod worlds;

pub use worlds::schedules_play_worlds;

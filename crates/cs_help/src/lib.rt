//! The texts that tell how the program is used: one for all commands, one for each, and its version.
#![tactic(auto)]

mod commands;
mod help;
mod telling;
mod topic;
mod version;

pub use help::help_text;
pub use telling::{tell_help, tell_version};
pub use topic::{Topic, topic_of};
pub use version::VERSION;

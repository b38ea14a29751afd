//! Plays the events of a schedule at its honest nodes, and prints what these do. It knows neither
//! the order nor the judge of the nodes.
#![tactic(auto)]

mod cores;
mod halt;
mod history;
mod lines;
mod logs;
mod node_log;
mod parcel;
mod play;
mod post;
mod telling;
mod voices;

pub use halt::Halt;
pub use history::History;
pub use lines::{forged_line, history_text, limit_line};
pub use node_log::{NodeLog, start_logs};
pub use parcel::Parcel;
pub use play::Replay;
pub use post::{Post, SendError};
pub use voices::Voices;

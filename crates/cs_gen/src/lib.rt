//! Schedules that are made of a number and a size: coins, the sessions that split them, and
//! datagrams that come.
#![tactic(auto)]

mod coins;
mod draws;
mod law;
mod limits;
mod rounds;
mod schedule;
mod serials;
mod sessions;

pub use law::generated_schedules_are_playable;
pub use limits::MOST_SIZE;
pub use schedule::schedule_of;

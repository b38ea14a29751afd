//! The agreement of one shard: what a member does, the law that every order keeps,
//! and the order of a single member.
#![tactic(auto)]

mod agreement;
mod answers;
mod kept_log;
mod order;
mod proposed;
mod solo;

pub use agreement::logs_agree;
pub use answers::{May, Outgoing, Step, Took};
pub use kept_log::KeptLog;
pub use order::Order;
pub use proposed::Proposed;
pub use solo::{NoMessage, Solo};

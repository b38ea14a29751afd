//! The rules of an order among 3f+1 members of which f may lie: its messages,
//! and what a member does by what it took.
#![tactic(auto)]

mod message;

pub use message::{Change, OrderMessage};

//! The open slot of a member: what it took of the slot, and what the rules make of that.
#![tactic(auto)]

mod current;
mod lines;
mod message;
mod pairs;

pub use current::OpenSlot;
pub use message::slot_of;

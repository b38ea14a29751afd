//! What nodes and clients say to each other, and the one body that each message has.
#![tactic(auto)]

mod change;
mod fitting;
pub mod kinds;
mod message;
mod passing;
mod reading;
mod rising;
mod sizing;
mod view;
mod whole;
mod writing;

pub use change::Change;
pub use message::Message;
pub use whole::{bodies_are_short, has_form, message_in};
pub use writing::{body_of, write_body};

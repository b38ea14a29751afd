//! Which dummies of its shard a node names by its words, and which of them a client takes.
#![tactic(auto)]

mod limits;
mod named;

pub use limits::MOST_ASKED;
pub use named::{least_named, named_with};

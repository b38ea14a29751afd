//! Counting the members of a shard that said something.
#![tactic(auto)]

mod tally;

pub use tally::Tally;

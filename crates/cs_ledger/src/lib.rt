//! The plain ledger, what shards make of sessions, and the theorem that all shards together
//! give one serial history.
#![tactic(auto)]

mod all_shards;
mod growth;
mod one_shard;

pub use all_shards::{composition, names_apart};
pub use growth::{all_more, commit_stays, one_more, votes_more};
pub use one_shard::{aborted_stays, one_vote};

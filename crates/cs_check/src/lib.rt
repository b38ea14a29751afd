//! The checkpoints of a shard's log at one node: the chain of its own, over its table, proofs
//! that an entry stands in the log, and the last checkpoint that each other member told.
#![tactic(auto)]

mod archive;
mod archive_fitting;
mod chain;
mod covered;
mod fitting;
mod hashes;
mod leaf;
mod root;

pub use archive::Archive;
pub use chain::{Chain, ProveError};
pub use root::{root_is_shown, table_root};

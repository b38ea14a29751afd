//! What a node keeps, as definitions: its pool, the votes on each session, the table of its shard,
//! what it admits, and what the execution of an entry makes of these.
#![tactic(auto)]

mod ballot;
mod pooled;

pub use ballot::Ballot;
pub use pooled::Pooled;

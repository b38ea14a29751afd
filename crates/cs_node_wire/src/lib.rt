//! How the messages of a shard's order go between nodes, and its entries with them.
#![tactic(auto)]

mod carried;
mod proposals;
mod slot_carried;
mod solo_carried;

pub use carried::Carried;
pub use proposals::{propose_entry, read_entry, void_entry};

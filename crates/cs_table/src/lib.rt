//! The records of a shard: what stands under each key, and what executing an entry does to it.
#![tactic(auto)]

mod change;
mod execution;
mod genesis;
mod listing;
mod piece;
mod pieces;
mod readers;
mod record;
mod sessions;
mod several;
mod standing;
mod table;
mod verdict;

pub use cs_tx_types::{Effect, Record};
pub use genesis::TableError;
pub use listing::{Records, Touched};
pub use piece::Piece;
pub use standing::{Preparation, Standing};
pub use table::Table;

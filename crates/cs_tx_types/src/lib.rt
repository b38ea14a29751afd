//! What is written of the ledger's data: transactions, sessions, actions and entries, the records
//! of a shard, and what is proved of its log; and the one encoding that each has in a version.
#![tactic(auto)]

mod action;
mod book;
mod checkpoint;
mod effect;
mod entry;
mod fitting;
mod leaf;
mod limits;
mod proof;
mod readers;
mod record;
mod session;
mod sized;
mod slot;
mod state;
mod stored;
mod trace;
mod transaction;
mod versioned;
mod vote;

pub use action::Action;
pub use checkpoint::Checkpoint;
pub use effect::Effect;
pub use entry::Entry;
pub use fitting::{checkpoint_fits, digest_fits, key_fits};
pub use leaf::{Leaf, room_place, write_place};
pub use limits::{
    COVERED, LAST_BATCH_PLACE, LAST_PLACE, MOST_BATCH_PATH, MOST_DEPS, MOST_PATH,
    MOST_SESSION_DUMMIES, MOST_TRACE_OBJECTS, MOST_TRACE_VALUES, MOST_TRACES,
};
pub use proof::Proof;
pub use record::Record;
pub use session::Session;
pub use sized::{read_sized, room_sized, skip_sized, write_sized};
pub use slot::{read_slot, skip_slot};
pub use state::State;
pub use stored::Stored;
pub use trace::Trace;
pub use transaction::Tx;
pub use versioned::Versioned;
pub use vote::Vote;

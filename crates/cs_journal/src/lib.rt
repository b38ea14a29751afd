//! A file that keeps the inputs of a node, each behind a gate that is opened once the input is on the
//! disk, so that a crash at any moment leaves each of them whole or not at all.
#![tactic(auto)]

mod error;
mod found;
mod given;
mod head;
mod journal;
mod laws;
mod limits;
mod recovery;
mod through;

pub use error::JournalError;
pub use found::Found;
pub use given::Given;
pub use head::journal_id;
pub use journal::Journal;
pub use laws::{a_file_is_one_journal, what_survives_is_a_journal};
pub use limits::MOST_JOURNAL;
pub use recovery::Recovery;

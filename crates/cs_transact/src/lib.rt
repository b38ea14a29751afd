//! Transactions in words: the text of a transaction, what is told of it, and the first cause for
//! which a text is none; and the command that reads a text and tells.
#![tactic(auto)]

mod command;
mod contracts;
mod fitting;
mod formed;
mod items;
mod lines;
mod reading;
mod refusal;
mod telling;
mod traces;

pub use command::{Told, run_transaction, tell_text};
pub use reading::read_transaction;
pub use refusal::{Refusal, TextError, TraceField};
pub use telling::put_transaction;

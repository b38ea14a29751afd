//! Trials of contracts: what the procedures of a contract make of cases, what its checks say of that
//! or of traces that are given, and where; and the command that reads cases and tells of each.
#![tactic(auto)]

mod command;
mod lines;
mod outcome;
mod outcomes;
mod traces;
mod trial;

pub use command::run_try;
pub use outcome::Outcome;
pub use trial::{Counts, Trial, try_text};

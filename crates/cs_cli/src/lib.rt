//! The command line: its words, and what the program does for each command. Of those that stand
//! on no crate of their own, what `contract` tells of a text, and `simulate`, which replays the
//! schedule of a number and a size.
#![tactic(auto)]

mod auditing;
mod claims;
mod deployments;
mod examining;
mod keys;
mod numbers;
mod program;
mod readings;
mod report;
mod runs;
mod simulated;
mod simulation;
mod telling;
mod transactions;
mod verifying;
mod wallets;
mod wishes;
mod words;

pub use cs_gen::MOST_SIZE;
pub use deployments::Deployment;
pub use program::run;
pub use report::{ContractMode, Report, report_on};
pub use simulation::simulate;
pub use words::{Command, WordsError, read_words, words_or_status};

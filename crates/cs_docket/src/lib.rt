//! A judge with a memory: a transaction on which he gave his verdict isn't judged again.
#![tactic(auto)]

mod docket;
mod judged;
mod limits;
mod verdicts;

pub use docket::Docket;
pub use limits::{MOST_APPROVED, MOST_DENIED};

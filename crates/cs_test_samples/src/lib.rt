//! What tests and benchmarks begin with: coins, transfers and sessions, and numbers that look
//! random, the same at each run.
#![tactic(auto)]

mod coins;
mod draws;
mod sessions;

pub use coins::{TOKEN, coin};
pub use draws::Draws;
pub use sessions::{Transfer, spend};

//! Printing contract texts.
#![tactic(auto)]

mod contracts;
mod expressions;
mod kinds;
mod statements;
mod words;

pub use contracts::print;

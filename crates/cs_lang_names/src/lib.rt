//! The names of a contract, each with a number, so that what a name stands for isn't searched for
//! where it is used.
#![tactic(auto)]

mod blocks;
mod expressions;
mod methods;
mod numbers;

pub use numbers::Numbers;

//! A plain evaluator of checks, against which their speed is measured, and worked rows of what
//! expressions mean.
#![tactic(auto)]

mod made;
mod operators;
mod plain;

pub use made::{Halt, Made};
pub use plain::{Plain, Ran, run};

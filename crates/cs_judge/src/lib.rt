//! What is wrong with a call by its file and the contracts alone, before any object is known.
#![tactic(auto)]

mod fault;
mod judging;

pub use fault::{CallFault, fault_line};
pub use judging::fault_of_call;

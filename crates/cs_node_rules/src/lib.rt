//! What a node does on each input, as functions of what it was given; and the lines of what it
//! did and sent.
#![tactic(auto)]

mod cause;

pub use cause::Cause;

//! One slot among 3f+1 members, as one member sees it: what was said in it,
//! and what the rules make of that.
#![tactic(auto)]

mod entries;
mod proposals;
mod rows;
mod slot;
mod votes;

pub use slot::Slot;

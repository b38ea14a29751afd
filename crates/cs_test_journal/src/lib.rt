//! Journals over a disk in memory: their bytes and ids, contents that are no journals, and what is
//! found after a crash at each call.
//!
//! It has tests alone.
#![tactic(auto)]

#[cfg(test)]
mod contents;
#[cfg(test)]
mod crashes;
#[cfg(test)]
mod reopening;

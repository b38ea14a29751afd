//! Tests of one slot among 3f+1 members.
#![tactic(auto)]

#[cfg(test)]
mod change_tests;
#[cfg(test)]
mod slot_tests;

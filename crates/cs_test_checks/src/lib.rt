//! Tests of checks and procedures.
#![tactic(auto)]

#[cfg(test)]
mod approve_tests;
#[cfg(test)]
mod proc_tests;

//! Trials: the rules written in Rust against a plain program, over random views from fixed seeds, and
//! payments that a wallet has signed.
//!
//! It has tests alone.
#![tactic(auto)]

#[cfg(test)]
mod plain;
#[cfg(test)]
mod rule_tests;
#[cfg(test)]
mod signed_tests;
#[cfg(test)]
mod traces;

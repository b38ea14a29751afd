//! Tests of a client: its phases, its tries, and keys that it looks up.
#![tactic(auto)]

#[cfg(test)]
mod cases;
#[cfg(test)]
mod client_tests;
#[cfg(test)]
mod show_tests;
#[cfg(test)]
mod tries_tests;
#[cfg(test)]
mod waits_tests;

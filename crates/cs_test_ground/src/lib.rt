//! Tests of what stands lowest: hashes, trees and tallies.
#![tactic(auto)]

#[cfg(test)]
mod hash_tests;
#[cfg(test)]
mod merkle_kept_tests;
#[cfg(test)]
mod merkle_tests;
#[cfg(test)]
mod quorum_tests;

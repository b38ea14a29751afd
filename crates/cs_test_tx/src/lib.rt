//! Tests of transactions, and of the table of a shard.
//! No file names `cs_tx_value`; its edge in crates.txt is there for the prover, which wants it in a goal.
#![tactic(auto)]

#[cfg(test)]
mod calls;
#[cfg(test)]
mod case_tests;
#[cfg(test)]
mod reader_tests;
#[cfg(test)]
mod table_dummy_tests;
#[cfg(test)]
mod table_tests;
#[cfg(test)]
mod tx_tests;
#[cfg(test)]
mod version_tests;

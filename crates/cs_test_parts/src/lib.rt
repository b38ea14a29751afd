//! Trials: the pool of a node against a plain list, over random inputs from fixed seeds.
//!
//! It has tests alone.
#![tactic(auto)]

#[cfg(test)]
mod batches;
#[cfg(test)]
mod plain_pool;
#[cfg(test)]
mod pools;

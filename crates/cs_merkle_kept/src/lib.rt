//! A Merkle tree over leaves under keys whose inner hashes are kept.
#![tactic(auto)]

mod changes;
mod incremental;
mod leaf;
mod level;
mod levels;
mod places;
mod steps;

pub use cs_hash::Digest;
pub use incremental::Incremental;
pub use leaf::Leaf;
pub use places::are_rising;
pub use steps::Steps;

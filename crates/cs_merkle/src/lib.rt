//! Merkle trees over leaves of bytes, and audit paths (RFC 6962, section 2.1).
#![tactic(auto)]

mod hashing;
mod laws;
mod proof;
mod tree;

pub use cs_hash::Digest;
pub use laws::{paths_verify, shown_leaf_is_there, trees_are_of_the_standard};
pub use proof::verify;
pub use tree::{PathError, path, root};

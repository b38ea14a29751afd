//! The hashes of leaves and of inner nodes, and where a tree is split.
ghost use Rattle.std.specs.Prelude.{◌≡◌, ◌<◌};
ghost use Rattle.cs_merkle.specs.Tree.{split, leaf_hash, node_hash};

use cs_hash::{Digest, tagged};
use sha2::{Digest as Hasher, Sha256};

// The bytes before a leaf and before the hashes of two subtrees: no leaf's string is a node's.
const LEAF: u8 = 0;

const NODE: u8 = 1;

pub fn hash_leaf(leaf: &[u8]) -> Digest
    ensures { result ≡ leaf_hash leaf.now }
{
    tagged(LEAF, leaf)
}

pub fn join(left: &Digest, right: &Digest) -> Digest
    ensures { result ≡ node_hash left.now right.now }
{
    let mut hasher = Sha256::new();
    hasher.update([NODE]);
    hasher.update(left);
    hasher.update(right);
    hasher.finalize()
}

// How many of n leaves lie in the left half.
pub fn left_half(n: u64) -> u64
    requires { 1 < n }
    ensures split { result ≡ split n }
    ensures some { 0 < result }
    ensures below { result < n }
{
    1 << (n - 1).ilog2()
}

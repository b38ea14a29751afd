//! Whether a path shows that a leaf is in a tree.
ghost use Rattle.std.specs.Prelude.{◌≡◌, ◌<◌, ◌≤◌, ◌↔◌, IsTrue, length, reverse};
ghost use Rattle.cs_merkle.specs.Path.{path_length, root_by, ShowsLeaf};

use crate::hashing::{hash_leaf, join, left_half};
use cs_hash::{Digest, same};

// How long the path of a place among n leaves is: at most 64.
fn path_length(n: u64, place: u64) -> u64
    ensures value { result ≡ path_length n place }
    ensures small { result ≤ n }
{
    if n <= 1 {
        return 0;
    }
    let k = left_half(n);
    if place < k {
        path_length(k, place) + 1
    } else {
        path_length(n - k, place - k) + 1
    }
}

// The root to which a path of the right length leads.
fn follow(n: u64, place: u64, leaf: &[u8], path: &[Digest]) -> Digest
    requires { length path.now ≡ path_length n place }
    ensures { result ≡ root_by n place leaf.now (reverse path.now) }
{
    match path.split_last() {
        None => hash_leaf(leaf),
        Some((beside, below)) => {
            let k = left_half(n);
            if place < k {
                join(&follow(k, place, leaf, below), beside)
            } else {
                join(beside, &follow(n - k, place - k, leaf, below))
            }
        }
    }
}

/// Whether a path, from the leaf up, shows that this leaf is at a place among the n leaves under a
/// root. It takes no memory, and answers false to a path of another length without hashing.
pub fn verify(root: &Digest, n: u64, place: u64, leaf: &[u8], path: &[Digest]) -> bool
    ensures { IsTrue result ↔ ShowsLeaf root.now n place leaf.now path.now }
{
    if place >= n || path.len() as u64 != path_length(n, place) {
        return false;
    }
    same(&follow(n, place, leaf, path), root)
}

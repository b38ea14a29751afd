//! The root of a tree, and the path of a leaf.
ghost use Rattle.std.specs.Prelude.{◌≡◌, ◌≤◌, ◌<◌, ◌↔◌, ◌++◌, length, IfOk, OnOk, IsErrOf};
ghost use Rattle.cs_merkle.specs.Tree.{leaves_of_vectors, merkle_tree_hash};
ghost use Rattle.cs_merkle.specs.Path.{audit_path};

use crate::hashing::{hash_leaf, join, left_half};
use cs_base::Memory;
use cs_hash::Digest;
use sha2::{Digest as Hasher, Sha256};
use std::alloc::Global;

/// Why there is no path.
#[derive(Clone, Copy, Debug, PartialEq, Eq)]
pub enum PathError {
    /// No leaf is at this place.
    NoLeaf,
    /// There was not enough memory.
    Memory,
}

impl From<Memory> for PathError {
    ghost use Rattle.std.specs.Prelude.{◌≡◌};
    ghost use Rattle.cs_merkle.specs.declared.tree.PathError.TheVariants.{Memory as NoMemory};

    ghost from_gives = { λ _ e. e ≡ NoMemory };

    fn from(_e: Memory) -> PathError {
        PathError::Memory
    }
}

/// The Merkle tree hash of leaves. It takes no memory, and time in proportion to their bytes.
pub fn root(leaves: &[Vec<u8>]) -> Digest
    ensures { result ≡ merkle_tree_hash (leaves_of_vectors leaves.now) }
{
    match leaves {
        [] => Sha256::digest([]),
        [leaf] => hash_leaf(leaf.as_slice()),
        _ => {
            let (left, right) = leaves.split_at(left_half(leaves.len() as u64) as usize);
            join(&root(left), &root(right))
        }
    }
}

// Adds the path of a place that has a leaf.
fn add_path(path: &mut Vec<Digest>, leaves: &[Vec<u8>], place: usize) -> Result<(), Memory>
    requires { place < length leaves.now }
    ensures { OnOk result
        (path.new.items ≡ path.old.items ++ audit_path (leaves_of_vectors leaves.now) place) }
{
    if leaves.len() == 1 {
        return Ok(());
    }
    let k = left_half(leaves.len() as u64) as usize;
    let (left, right) = leaves.split_at(k);
    if place < k {
        add_path(path, left, place)?;
        path.push(root(right))?;
    } else {
        add_path(path, right, place - k)?;
        path.push(root(left))?;
    }
    Ok(())
}

/// The audit path of the leaf at a place, from the leaf up. It takes time in proportion to the
/// bytes of the leaves.
pub fn path(alloc: Global, leaves: &[Vec<u8>], place: usize) -> Result<Vec<Digest>, PathError>
    ensures path { IfOk result (λ path. path.items ≡ audit_path (leaves_of_vectors leaves.now) place) }
    ensures no_leaf { IsErrOf result PathError.NoLeaf ↔ (length leaves.now ≤ place) }
{
    if place >= leaves.len() {
        return Err(PathError::NoLeaf);
    }
    let mut path = Vec::new(alloc);
    add_path(&mut path, leaves, place)?;
    Ok(path)
}

//! A leaf that is hashed.
ghost use Rattle.std.specs.Prelude.{◌≡◌, IfOk};
ghost use Rattle.cs_merkle.specs.Tree.{leaf_hash};
ghost use Rattle.cs_merkle_kept.specs.Leaves.{leaf_entry};

use cs_base::Memory;
use cs_hash::{Digest, tagged};
use std::alloc::Global;

// The byte before a leaf.
const LEAF: u8 = 0;

/// The hash of a leaf, under its key.
#[derive(Drop)]
pub struct Leaf {
    key: Vec<u8>,
    hash: Digest,
}

impl Leaf {
    /// Takes memory for the key alone.
    pub fn new(alloc: Global, key: &[u8], leaf: &[u8]) -> Result<Leaf, Memory>
        ensures { IfOk result (λ made. leaf_entry made ≡ (key.now, leaf_hash leaf.now)) }
    {
        let key = Vec::from_slice(alloc, key)?;
        Ok(Leaf {
            key,
            hash: tagged(LEAF, leaf),
        })
    }

    pub(crate) fn key(&self) -> &[u8]
        ensures { result.now ≡ self.now.key.items }
    {
        self.key.as_slice()
    }

    pub(crate) fn hash(&self) -> Digest
        ensures { result ≡ self.now.hash }
    {
        self.hash
    }
}

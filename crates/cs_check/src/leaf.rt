//! Leaves, read again.
ghost use Rattle.std.specs.Prelude.{◌≡◌, ◌<◌, All, length, slice_get, IfOk};
ghost use Rattle.cs_merkle.specs.Tree.{leaves_of_vectors};
ghost use Rattle.cs_base.specs.declared.version.Version.TheVariants.{One};
ghost use Rattle.cs_tx_types.specs.Log.{leaf_encoding, LeafFits};
ghost use Rattle.cs_check_rules.specs.Chain.{IsLeaf};

use cs_base::Memory;
use cs_tx::{Leaf, Versioned};
use std::alloc::Global;

// Bytes that encode a leaf are refused for want of memory alone.
fn decode_leaf(alloc: Global, bytes: &[u8]) -> Result<Leaf, Memory>
    requires { IsLeaf bytes.now }
    ensures { IfOk result (λ leaf. LeafFits One leaf × (bytes.now ≡ leaf_encoding One leaf)) }
{
    match Leaf::decode(alloc, bytes, 1) {
        Ok(leaf) => Ok(leaf),
        Err(_) => Err(Memory),
    }
}

/// The leaf of a slot.
pub(crate) fn read_leaf(alloc: Global, leaves: &[Vec<u8>], slot: usize) -> Result<Leaf, Memory>
    requires within { slot < length leaves.now }
    requires leaves { All IsLeaf (leaves_of_vectors leaves.now) }
    ensures fits { IfOk result (LeafFits One) }
    ensures leaf { IfOk result (λ leaf.
        slice_get (leaves_of_vectors leaves.now) slot ≡ Some (leaf_encoding One leaf)) }
{
    let leaf = decode_leaf(alloc, leaves[slot].as_slice())?;
    Ok(leaf)
}

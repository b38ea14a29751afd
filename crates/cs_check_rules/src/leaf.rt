//! The encodings of leaves.
ghost use Rattle.std.specs.Prelude.{◌≡◌, IfOk};
ghost use Rattle.cs_base.specs.declared.version.Version.TheVariants.{One};
ghost use Rattle.cs_tx_types.specs.Log.{leaf_encoding, LeafFits};
ghost use Rattle.cs_check_rules.specs.Chain.{IsLeaf};

use cs_base::{Memory, Version};
use cs_tx::{Leaf, Versioned};
use std::alloc::Global;

/// The encoding of a leaf, as a chain takes it.
pub fn encode_leaf(alloc: Global, leaf: &Leaf) -> Result<Vec<u8>, Memory>
    requires { LeafFits One leaf.now }
    ensures encoded { IfOk result (λ bytes. bytes.items ≡ leaf_encoding One leaf.now) }
    ensures leaf { IfOk result (λ bytes. IsLeaf bytes.items) }
{
    leaf.to_bytes(alloc, Version::One)
}

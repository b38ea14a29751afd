//! The test of a proof.
ghost use Rattle.std.specs.Prelude.{◌≡◌, ◌+◌, ◌*◌, ◌↔◌, IsTrue, IfOk};
ghost use Rattle.cs_base.specs.declared.version.Version.TheVariants.{One};
ghost use Rattle.cs_tx_types.specs.declared.limits.TheConstants.{COVERED};
ghost use Rattle.cs_tx_types.specs.Log.{LeafFits};
ghost use Rattle.cs_check_rules.specs.Shown.{Shows};

use crate::head::checkpoint_head;
use crate::leaf::encode_leaf;
use cs_base::Memory;
use cs_hash::same;
use cs_merkle::verify;
use cs_tx::{Digest, Proof};
use cs_tx_types::COVERED;
use std::alloc::Global;

// Whether a slot is the one at this place of the 16 that the checkpoint of this number covers.
fn is_at(slot: u64, number: u64, place: u16) -> bool
    ensures { IsTrue result ↔ (slot ≡ COVERED * number + place) }
{
    match slot.checked_sub(u64::from(place)) {
        Some(first) => first % COVERED == 0 && first / COVERED == number,
        None => false,
    }
}

/// Whether a proof shows its leaf to who knows that a checkpoint has this head, say from more nodes
/// of the shard than lie.
pub fn shows(alloc: Global, head: &Digest, proof: &Proof) -> Result<bool, Memory>
    requires { LeafFits One proof.now.leaf }
    ensures { IfOk result (λ shows. IsTrue shows ↔ Shows head.now proof.now) }
{
    let checkpoint = &proof.checkpoint;
    if !same(&checkpoint_head(checkpoint), head) {
        return Ok(false);
    }
    if !is_at(proof.leaf.slot, checkpoint.number, proof.place) {
        return Ok(false);
    }
    let leaf = encode_leaf(alloc, &proof.leaf)?;
    let place = u64::from(proof.place);
    let path = proof.path.as_slice();
    Ok(verify(&checkpoint.leaf_root, COVERED, place, leaf.as_slice(), path))
}

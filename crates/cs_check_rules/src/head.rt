//! The heads of checkpoints.
ghost use Rattle.std.specs.Prelude.{◌≡◌, ◌∷◌, ◌++◌};
ghost use Rattle.std.specs.Int.{w16, w64, to_be_bytes};
ghost use Rattle.sha2.specs.Hashers.{Holds256};
ghost use Rattle.cs_check_rules.specs.Chain.{head_of};

use cs_tx::{Checkpoint, Digest};
use sha2::{Digest as Hasher, Sha256};

// A hasher that holds the letter and the numbers.
fn numbered(checkpoint: &Checkpoint) -> Sha256
    ensures { Holds256 result (67 ∷ (to_be_bytes w16 checkpoint.now.shard
        ++ to_be_bytes w64 checkpoint.now.number)) }
{
    let mut hasher = Sha256::new();
    hasher.update([b'C']);
    hasher.update(checkpoint.shard.to_be_bytes());
    hasher.update(checkpoint.number.to_be_bytes());
    hasher
}

/// SHA-256 of the letter C and the encoding: one digest by which all that led to a checkpoint can
/// be compared.
#[tactic(auto, using(crate::proofs::Heads::regrouped))]
pub fn checkpoint_head(checkpoint: &Checkpoint) -> Digest
    ensures { result ≡ head_of checkpoint.now }
{
    let mut hasher = numbered(checkpoint);
    hasher.update(checkpoint.previous.as_slice());
    hasher.update(checkpoint.leaf_root.as_slice());
    hasher.update(checkpoint.table_root.as_slice());
    hasher.finalize()
}

//! What a proof that was tested tells of a shard's log.
ghost use Rattle.std.specs.Prelude.{◌≡◌, ℕ, List, map, slice_get, All, Some};
ghost use Rattle.cs_base.specs.declared.version.Version.TheVariants.{One};
ghost use Rattle.cs_tx_types.specs.declared.checkpoint.Checkpoint.{Checkpoint};
ghost use Rattle.cs_tx_types.specs.declared.leaf.Leaf.{Leaf};
ghost use Rattle.cs_tx_types.specs.declared.proof.Proof.{Proof};
ghost use Rattle.cs_tx_types.specs.Log.{leaf_encoding, LeafFits, ProofFits};
ghost use Rattle.cs_check_rules.specs.Chain.{head_of};
ghost use Rattle.cs_check_rules.specs.Shown.{Shows, CoversLeaves, IsOf, NoProofCollision};

/// Where the strings hashed for a checkpoint and for a proof don't collide, a proof that shows its
/// leaf under the checkpoint's head is of that shard and number, and its leaf is the one that the
/// checkpoint has at that place.
pub fn shown_leaf_is_covered()
    ensures bytes { (c : Checkpoint) (leaves : List (List ℕ)) (proof : Proof) →
        CoversLeaves c leaves → ProofFits One proof → NoProofCollision c leaves proof →
        Shows (head_of c) proof → IsOf c leaves proof }
    ensures leaf { (c : Checkpoint) (leaves : List Leaf) (proof : Proof) →
        All (LeafFits One) leaves → CoversLeaves c (map (leaf_encoding One) leaves) → ProofFits One proof →
        NoProofCollision c (map (leaf_encoding One) leaves) proof → Shows (head_of c) proof →
        slice_get leaves proof.place ≡ Some proof.leaf }
{}

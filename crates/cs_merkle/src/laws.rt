//! What holds of every tree and path.
ghost use Rattle.std.specs.Prelude.{◌≡◌, ◌<◌, ℕ, List, length, slice_get, Some};
ghost use Rattle.cs_merkle.specs.Tree.{merkle_tree_hash};
ghost use Rattle.cs_merkle.specs.Path.{audit_path, ShowsLeaf};
ghost use Rattle.cs_merkle.specs.Standard.{IsTreeHash, IsAuditPath};
ghost use Rattle.cs_merkle.specs.Collisions.{NoTreeCollision};

/// The Merkle tree hash and the audit path meet the equations by which the standard defines them.
pub fn trees_are_of_the_standard()
    ensures root { IsTreeHash merkle_tree_hash }
    ensures path { IsAuditPath merkle_tree_hash audit_path }
{}

/// The audit path of each leaf shows it.
pub fn paths_verify()
    ensures { (leaves : List (List ℕ)) (place : ℕ) (leaf : List ℕ) →
        slice_get leaves place ≡ Some leaf →
        ShowsLeaf (merkle_tree_hash leaves) (length leaves) place leaf (audit_path leaves place) }
{}

/// Where the strings hashed for a tree and along a path don't collide, what the path shows under
/// the root of a list is the leaf at that place of the list, and the path is the leaf's audit path.
pub fn shown_leaf_is_there()
    ensures { (leaves : List (List ℕ)) (place : ℕ) (leaf : List ℕ) (path : List (List ℕ)) →
        NoTreeCollision leaves place leaf path →
        ShowsLeaf (merkle_tree_hash leaves) (length leaves) place leaf path →
        (slice_get leaves place ≡ Some leaf) × (path ≡ audit_path leaves place) }
{}

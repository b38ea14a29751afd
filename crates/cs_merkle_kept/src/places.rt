//! Where a key stands.
ghost use Rattle.std.specs.Prelude.{◌≡◌, ◌↔◌, IsTrue, MatchResult};
ghost use Rattle.std.specs.Map.{keys_of};
ghost use Rattle.cs_merkle.specs.Tree.{leaves_of_vectors};
ghost use Rattle.cs_merkle_kept.specs.Leaves.{AreRising, IsAt, IsGap, leaf_entries};

use crate::leaf::Leaf;

/// The place of a key among rising ones, or the place at which it would stand.
pub fn search(keys: &[Vec<u8>], key: &[u8]) -> Result<usize, usize>
    requires { AreRising (leaves_of_vectors keys.now) }
    ensures { let keys = leaves_of_vectors keys.now in
        MatchResult result (IsAt keys key.now) (IsGap keys key.now) }
{
    keys.binary_search_by(|kept| kept.as_slice().cmp(key))
}

/// Whether each key is less than the next, as `Incremental::put_all` asks.
pub fn are_rising(leaves: &[Leaf]) -> bool
    ensures { IsTrue result ↔ AreRising (keys_of (leaf_entries leaves.now)) }
{
    for i in 1..leaves.len() {
        if !leaves[i - 1].key().cmp(leaves[i].key()).is_lt() {
            return false;
        }
    }
    true
}

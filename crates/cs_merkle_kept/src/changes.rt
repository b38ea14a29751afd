//! Putting hashes under keys.
ghost use Rattle.std.specs.Prelude.{◌≡◌, ◌<◌, [], length, slice_index_or, Contains, IfOk};
ghost use Rattle.std.specs.Map.{keys_of};
ghost use Rattle.cs_merkle.specs.Tree.{leaves_of_vectors};
ghost use Rattle.cs_merkle_kept.specs.Leaves.{AreRising, IsAt, leaf_entry, leaf_entries};
ghost use Rattle.cs_merkle_kept.specs.Kept.{AreKept};
ghost use Rattle.cs_merkle_kept.specs.Puts.{IsPutAll, IsPutFront, IsPutOne, IsPutRest};

use crate::leaf::Leaf;
use crate::places::search;
use cs_base::Memory;
use cs_hash::Digest;
use std::alloc::Global;

// Sets the hashes of the leaves at the front whose keys are there, up to the first new one, and
// gives their places.
fn put_front(
    alloc: Global,
    keys: &[Vec<u8>],
    hashes: &mut [Digest],
    leaves: &[Leaf],
) -> Result<Vec<usize>, Memory>
    requires kept { AreKept (leaves_of_vectors keys.now) hashes.old }
    ensures front { IfOk result (λ places. IsPutFront (leaves_of_vectors keys.now)
        (leaf_entries leaves.now) hashes.old hashes.new places.items) }
    ensures ended { IfOk result (λ places. length places.items < length leaves.now
        → Contains (leaves_of_vectors keys.now)
        (slice_index_or (keys_of (leaf_entries leaves.now)) (length places.items) []) → ⊥) }
{
    let mut places = Vec::new(alloc);
    for leaf in leaves {
        match search(keys, leaf.key()) {
            Ok(place) => {
                hashes[place] = leaf.hash();
                places.push(place)?;
            }
            Err(_) => return Ok(places),
        }
    }
    Ok(places)
}

// Puts one leaf, and gives its place.
fn put_one(
    alloc: Global,
    keys: &mut Vec<Vec<u8>>,
    hashes: &mut Vec<Digest>,
    leaf: &Leaf,
) -> Result<usize, Memory>
    requires kept { AreKept (leaves_of_vectors keys.old.items) hashes.old.items }
    ensures { IfOk result (λ place. IsPutOne (leaves_of_vectors keys.old.items) hashes.old.items
        (leaf_entry leaf.now) (leaves_of_vectors keys.new.items) hashes.new.items place) }
{
    match search(keys.as_slice(), leaf.key()) {
        Ok(place) => {
            hashes[place] = leaf.hash();
            Ok(place)
        }
        Err(place) => {
            keys.insert(place, Vec::from_slice(alloc, leaf.key())?)?;
            hashes.insert(place, leaf.hash())?;
            Ok(place)
        }
    }
}

// Puts each leaf, and gives the first place of one, or the number of hashes where there is none.
fn put_rest(
    alloc: Global,
    keys: &mut Vec<Vec<u8>>,
    hashes: &mut Vec<Digest>,
    leaves: &[Leaf],
) -> Result<usize, Memory>
    requires kept { AreKept (leaves_of_vectors keys.old.items) hashes.old.items }
    ensures rest { IfOk result (λ first. IsPutRest (leaves_of_vectors keys.old.items) hashes.old.items
        (leaf_entries leaves.now) (leaves_of_vectors keys.new.items) hashes.new.items first) }
    ensures place { IfOk result (λ first. AreRising (keys_of (leaf_entries leaves.now))
        → 0 < length leaves.now → IsAt (leaves_of_vectors keys.new.items)
        (slice_index_or (keys_of (leaf_entries leaves.now)) 0 []) first) }
{
    let mut first = hashes.len();
    for leaf in leaves {
        let place = put_one(alloc, keys, hashes, leaf)?;
        first = first.min(place);
    }
    Ok(first)
}

/// Puts leaves under rising keys. It gives the places of the old keys before the first new one, and
/// the place of that, or their number where none is new.
pub fn put_leaves(
    alloc: Global,
    keys: &mut Vec<Vec<u8>>,
    hashes: &mut Vec<Digest>,
    leaves: &[Leaf],
) -> Result<(Vec<usize>, usize), Memory>
    requires kept { AreKept (leaves_of_vectors keys.old.items) hashes.old.items }
    requires rising { AreRising (keys_of (leaf_entries leaves.now)) }
    ensures { IfOk result (λ (places, first). IsPutAll (leaves_of_vectors keys.old.items) hashes.old.items
        (leaf_entries leaves.now) (leaves_of_vectors keys.new.items) hashes.new.items places.items first) }
{
    let places = put_front(alloc, keys.as_slice(), hashes.as_mut_slice(), leaves)?;
    let first = put_rest(alloc, keys, hashes, &leaves[places.len()..])?;
    Ok((places, first))
}

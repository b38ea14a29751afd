//! One level of inner nodes, made anew where the level below changed.
ghost use Rattle.std.specs.Prelude.{◌≡◌, ℕ, ◌+◌, ◌-◌, ◌*◌, ◌/◌, ◌<◌, ◌≤◌, [], min, length, take, slice_index_or, OnOk};
ghost use Rattle.std.specs.List.Sorted.{IsNonDecreasing};
ghost use Rattle.cs_merkle_kept.specs.Levels.{parent_at, parents};
ghost use Rattle.cs_merkle_kept.specs.Changes.{Spares};
ghost use Rattle.cs_merkle_kept.specs.Counts.{joins_at};

use crate::steps::Steps;
use cs_base::Memory;
use cs_hash::Digest;
use std::sync::ledger::Ledger;

// The hash of a node over the level below: a join, or the last hash where it is alone.
fn parent<L: Ledger>(below: &[Digest], place: usize, steps: &mut Steps<L>) -> Digest
    requires { 2 * place < length below.now }
    ensures hash { result ≡ parent_at below.now place }
    ensures steps { steps.new ≡ steps.old + joins_at (length below.now) place }
{
    let left = 2 * place;
    if left + 1 < below.len() {
        steps.join(&below[left], &below[left + 1])
    } else {
        below[left]
    }
}

// Makes anew the nodes at rising places; the others are right.
fn rejoin<L: Ledger>(below: &[Digest], above: &mut [Digest], places: &[usize], steps: &mut Steps<L>)
    requires few { 2 * length above.old ≤ length below.now + 1 }
    requires rising { IsNonDecreasing places.now }
    requires others { (place : ℕ) → place < length above.old → Spares places.now place
        → slice_index_or above.old place [] ≡ parent_at below.now place }
    ensures level { above.new ≡ take (length above.old) (parents below.now) }
    ensures steps { steps.new ≤ steps.old
        + min (length places.now) (min (length above.old) (length below.now / 2)) }
{
    let mut next = 0;
    for place in places {
        if *place < next || *place >= above.len() {
            continue;
        }
        above[*place] = parent(below, *place, steps);
        next = *place + 1;
    }
}

// Adds the nodes that are missing at the end.
fn extend<L: Ledger>(
    below: &[Digest],
    above: &mut Vec<Digest>,
    steps: &mut Steps<L>,
) -> Result<(), Memory>
    requires { above.old.items ≡ take (length above.old.items) (parents below.now) }
    ensures level { OnOk result (above.new.items ≡ parents below.now) }
    ensures steps { OnOk result (steps.new + min (length above.old.items) (length below.now / 2)
        ≡ steps.old + length below.now / 2) }
{
    for place in above.len()..below.len() - below.len() / 2 {
        above.push(parent(below, place, steps))?;
    }
    Ok(())
}

/// Makes a level that of the parents of the one below: the nodes at these places, and all but so
/// many at the front. No node is joined twice.
pub fn renew<L: Ledger>(
    below: &[Digest],
    above: &mut Vec<Digest>,
    places: &[usize],
    kept: usize,
    steps: &mut Steps<L>,
) -> Result<(), Memory>
    requires kept { kept ≤ length above.old.items }
    requires few { 2 * kept ≤ length below.now + 1 }
    requires rising { IsNonDecreasing places.now }
    requires others { (place : ℕ) → place < kept → Spares places.now place
        → slice_index_or above.old.items place [] ≡ parent_at below.now place }
    ensures level { OnOk result (above.new.items ≡ parents below.now) }
    ensures once { OnOk result (steps.new ≤ steps.old + length below.now / 2) }
    ensures few { OnOk result
        (steps.new ≤ steps.old + length places.now + (length below.now / 2 - kept)) }
{
    above.truncate(kept);
    rejoin(below, above.as_mut_slice(), places, steps);
    extend(below, above, steps)
}

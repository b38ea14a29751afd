//! The levels of inner nodes up to the root.
ghost use Rattle.std.specs.Prelude.{◌≡◌, ◌+◌, ◌-◌, ◌/◌, ◌<◌, ◌≤◌, ◌++◌, [], length, map, replicate, OnOk};
ghost use Rattle.std.specs.List.Sorted.{IsNonDecreasing};
ghost use Rattle.cs_merkle_kept.specs.Levels.{AreLevels, IsHeight, levels_of};
ghost use Rattle.cs_merkle_kept.specs.Changes.{IsStale, WereOver, halved, kept_above};
ghost use Rattle.cs_merkle_kept.specs.Counts.{most_joins};

use crate::level::renew;
use crate::steps::Steps;
use cs_base::Memory;
use cs_hash::Digest;
use std::alloc::Global;
use std::sync::ledger::Ledger;

// How many levels lead from so many leaves to the root.
fn height_of(count: usize) -> usize
    ensures height { IsHeight count result }
    ensures few { result ≤ count }
{
    if count <= 1 {
        return 0;
    }
    height_of(count - count / 2) + 1
}

// Adds levels without nodes, up to a height.
fn grow(alloc: Global, levels: &mut Vec<Vec<Digest>>, height: usize) -> Result<(), Memory>
    requires { length levels.old.items ≤ height }
    ensures { OnOk result (levels_of levels.new.items
        ≡ levels_of levels.old.items ++ replicate (height - length levels.old.items) []) }
{
    while levels.len() < height {
        levels.push(Vec::new(alloc))?;
    }
    Ok(())
}

fn halve(places: &mut [usize])
    ensures { places.new ≡ halved places.old }
{
    for place in places.iter_mut() {
        *place /= 2;
    }
}

// How many nodes of the level above so many are kept where all from the first on moved.
fn count_kept(first: usize, count: usize) -> usize
    ensures { result ≡ kept_above first count }
{
    if first < count {
        first / 2
    } else {
        count - count / 2
    }
}

// Makes the levels those over the hashes below, of which those at rising places changed, and all
// from the first moved one on. No node is joined twice.
fn refresh<L: Ledger>(
    below: &[Digest],
    levels: &mut [Vec<Digest>],
    places: &mut [usize],
    first: usize,
    steps: &mut Steps<L>,
) -> Result<(), Memory>
    requires height { IsHeight (length below.now) (length levels.old) }
    requires rising { IsNonDecreasing places.old }
    requires stale { IsStale below.now (levels_of levels.old) places.old first }
    ensures levels { OnOk result (AreLevels below.now (levels_of levels.new)) }
    ensures once { OnOk result (steps.new ≤ steps.old + (length below.now - 1)) }
    ensures few { OnOk result (steps.new ≤ steps.old
        + most_joins (length places.old) (length below.now - first) (length levels.old)) }
{
    match levels.split_first_mut() {
        None => Ok(()),
        Some((level, higher)) => {
            let kept = count_kept(first, below.len());
            halve(places);
            renew(below, level, places, kept, steps)?;
            refresh(level.as_slice(), higher, places, kept, steps)
        }
    }
}

/// Makes the levels those over hashes, of which those at rising places changed, and all from the
/// first moved one on. No node is joined twice.
pub fn raise<L: Ledger>(
    alloc: Global,
    hashes: &[Digest],
    levels: &mut Vec<Vec<Digest>>,
    places: &mut [usize],
    first: usize,
    steps: &mut Steps<L>,
) -> Result<(), Memory>
    requires rising { IsNonDecreasing places.old }
    requires over { WereOver hashes.now (levels_of levels.old.items) places.old first }
    ensures levels { OnOk result (AreLevels hashes.now (levels_of levels.new.items)) }
    ensures height { OnOk result (IsHeight (length hashes.now) (length levels.new.items)) }
    ensures once { OnOk result (steps.new ≤ steps.old + (length hashes.now - 1)) }
    ensures few { OnOk result (steps.new ≤ steps.old + most_joins (length places.old)
        (length hashes.now - first) (length levels.new.items)) }
{
    grow(alloc, levels, height_of(hashes.len()))?;
    refresh(hashes, levels.as_mut_slice(), places, first, steps)
}

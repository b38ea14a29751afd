//! Leaves of slots that are pushed to the chain of a shard's checkpoints.
ghost use Rattle.std.specs.Prelude.{OnOk};
ghost use Rattle.cs_table.specs.Seen.{seen};
ghost use Rattle.cs_check.specs.Leaves.{HasLeaves};

use crate::table::{coins, shard};
use cs_base::Memory;
use cs_check::Chain;
use cs_check_rules::{Leaf, encode_leaf};
use cs_table::Table;
use cs_test_samples::spend;
use cs_tx::{Action, Effect, Versioned};
use std::alloc::Global;

/// Pushes so many leaves, over a table of so many coins that stays as it is: how many slots the
/// chain has.
pub fn run(alloc: Global, objects: u32, count: u32) -> Result<u32, Memory> {
    let objects = coins(alloc, objects)?;
    let Some(table) = shard(alloc, &objects)? else {
        return Ok(0);
    };
    let mut chain = Chain::new(alloc, 0, &table)?;
    fill(alloc, &mut chain, &table, count)?;
    Ok(u32::try_from(chain.slots()).unwrap_or(0))
}

fn fill(alloc: Global, chain: &mut Chain, table: &Table, count: u32) -> Result<(), Memory>
    requires { HasLeaves chain.old.hashed (seen table.now) }
{
    for slot in 0..count {
        push(alloc, chain, table, u64::from(slot))?;
    }
    Ok(())
}

// The leaf of a slot in which a session with one coin was prepared.
fn push(alloc: Global, chain: &mut Chain, table: &Table, slot: u64) -> Result<(), Memory>
    requires { HasLeaves chain.old.hashed (seen table.now) }
    ensures { OnOk result (HasLeaves chain.new.hashed (seen table.now)) }
{
    let leaf = Leaf {
        slot,
        place: 0,
        action: Action::Prepare(spend(alloc, [7; 32], 1, &[1], slot)?),
        result: Effect::Void,
    };
    if leaf.fits(1) {
        let bytes = encode_leaf(alloc, &leaf)?;
        chain.push(alloc, bytes, table)?;
    }
    Ok(())
}

//! Whether genesis objects have keys of their own.
ghost use Rattle.std.specs.Prelude.{◌≡◌, ◌≢◌, ◌≤◌, false, IfOk, [], length};
ghost use Rattle.std.specs.List.{All, AllPairs};
ghost use Rattle.cs_base.specs.declared.limits.TheConstants.{MOST_GENESIS};
ghost use Rattle.cs_tx_value.specs.Object.{ObjectFits};
ghost use Rattle.cs_tx.specs.GenesisNames.{genesis_names};
ghost use Rattle.cs_deploy.specs.Files.{repeats};

use cs_base::Memory;
use cs_sched::{NameSet, genesis_name};
use cs_tx_value::Object;
use std::alloc::Global;

/// Whether two of these objects have one key.
pub fn has_twice(alloc: Global, objects: &[Object]) -> Result<bool, Memory>
    requires fit { All ObjectFits objects.now }
    requires few { length objects.now ≤ MOST_GENESIS }
    ensures found { IfOk result (λ found. found ≡ repeats [] (genesis_names 0 objects.now)) }
    ensures differ { IfOk result (λ found. found ≡ false →
        AllPairs (λ a b. a ≢ b) (genesis_names 0 objects.now)) }
{
    let mut names = NameSet::new(alloc);
    for (place, object) in objects.iter().enumerate() {
        let name = genesis_name(alloc, place as u32, object)?;
        if !names.insert(name)? {
            return Ok(true);
        }
    }
    Ok(false)
}

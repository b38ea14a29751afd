//! Genesis objects under their keys.
ghost use Rattle.std.specs.Prelude.{◌≡◌, ◌≤◌, length, IfOk};
ghost use Rattle.std.specs.List.{All};
ghost use Rattle.cs_base.specs.declared.limits.TheConstants.{MOST_GENESIS};
ghost use Rattle.cs_tx_value.specs.Object.{ObjectFits};
ghost use Rattle.cs_sbac.specs.Genesis.{keyed_from};

use cs_base::{Key, Memory};
use cs_tx::{Encoded, Object, genesis_key};
use std::alloc::Global;

/// The objects under their keys, by their places.
pub fn keyed(alloc: Global, objects: &[Object]) -> Result<Vec<(Key, Object)>, Memory>
    requires fits { All ObjectFits objects.now }
    requires few { length objects.now ≤ MOST_GENESIS }
    ensures { IfOk result (λ keyed. keyed.items ≡ keyed_from 0 objects.now) }
{
    let mut keyed = Vec::new(alloc);
    for (place, object) in objects.iter().enumerate() {
        let key = genesis_key(alloc, place as u32, object)?;
        let copied = object.copy(alloc)?;
        keyed.push((key, copied))?;
    }
    Ok(keyed)
}

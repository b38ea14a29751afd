//! Objects with the key of an earlier one.
ghost use Rattle.std.specs.Prelude.{◌≡◌, ◌≤◌, ◌++◌, ◌∷◌, [], not, length, IfOk, if◌then◌else◌};
ghost use Rattle.std.specs.List.{All};
ghost use Rattle.cs_base.specs.declared.limits.TheConstants.{MOST_GENESIS};
ghost use Rattle.cs_tx_value.specs.Object.{ObjectFits};
ghost use Rattle.cs_tx.specs.Digest.{name_of_genesis};
ghost use Rattle.cs_tx.specs.GenesisNames.{is_known};
ghost use Rattle.cs_cli.specs.Keys.{repeated_key};

use cs_base::{Key, Memory};
use cs_tx::{Digest, Object, genesis_key};
use indexmap::IndexSet;
use std::alloc::Global;

// The name that is the key of an object at a place of the genesis.
fn name_at(alloc: Global, place: u32, object: &Object) -> Result<Digest, Memory>
    requires { ObjectFits object.now }
    ensures { IfOk result (λ name. name ≡ name_of_genesis place object.now) }
{
    match genesis_key(alloc, place, object)? {
        Key::Object(name) => Ok(name),
        Key::Dummy(..) => unreachable!(),
    }
}

// Adds a name, or answers false where it is there already.
fn add_name(names: &mut IndexSet<Digest>, name: Digest) -> Result<bool, Memory>
    ensures added { IfOk result (λ added. added ≡ not (is_known name names.old.keys)) }
    ensures names { IfOk result (λ added.
        names.new.keys ≡ (if added then names.old.keys ++ name ∷ [] else names.old.keys)) }
{
    Ok(names.insert(name)?)
}

// The place of the first object with the key of an earlier one.
pub(crate) fn repeated_key(alloc: Global, objects: &[Object]) -> Result<Option<u32>, Memory>
    requires fit { All ObjectFits objects.now }
    requires few { length objects.now ≤ MOST_GENESIS }
    ensures { IfOk result (λ place. place ≡ repeated_key objects.now) }
{
    let mut names = IndexSet::new(alloc);
    for place in 0..objects.len() {
        let name = name_at(alloc, place as u32, &objects[place])?;
        if !add_name(&mut names, name)? {
            return Ok(Some(place as u32));
        }
    }
    Ok(None)
}

//! Saving key files.
ghost use Rattle.std.specs.Prelude.{◌≡◌, true, [], ◌∷◌};
ghost use Rattle.cs_base.specs.Outside.{HasCause};
ghost use Rattle.cs_base.specs.NodeId.{is_named};
ghost use Rattle.cs_io.specs.Told.{Changes};
ghost use Rattle.cs_wire.specs.AllNames.{names_of};
ghost use Rattle.cs_config.specs.Saving.{SavesUpTo, ByFault};

use crate::naming::key_file;
use crate::{Site, print_keys};
use cs_base::{Memory, NodeId};
use cs_io::{Saved, Store};
use cs_tx_value::Digest;
use cs_wire::all_names;
use std::alloc::Global;

/// Why not all key files were saved.
#[derive(Clone, Copy, Debug, PartialEq, Eq)]
pub enum SaveError {
    /// The store failed at the key file of this node or client.
    Fault(NodeId),
    /// There was not enough memory.
    Memory,
}

impl From<Memory> for SaveError {
    ghost use Rattle.cs_config.specs.declared.saving.SaveError.TheVariants.{Memory as NoMemory};

    ghost from_gives = { λ _ e. e ≡ NoMemory };

    fn from(_e: Memory) -> SaveError {
        SaveError::Memory
    }
}

/// Saves the key files that a master key gives the nodes of the site, by shard and index, and then
/// the clients. It ends at the first that isn't saved.
pub fn save_keys<E: Store>(
    alloc: Global,
    store: &mut E,
    site: &Site,
    master: &Digest,
) -> Result<(), SaveError>
    ensures saved { Changes
        (SavesUpTo site.now.config master.now (names_of site.now.config) result)
        (E.files store.old) (E.files store.new) }
    ensures cause { HasCause (E.faults store.old) (E.faults store.new) (ByFault result) }
{
    let names = all_names(alloc, &site.config)?;
    for me in names.as_slice() {
        save_one(alloc, store, site, master, *me)?;
    }
    Ok(())
}

// Saves the key file of a node or client.
fn save_one<E: Store>(
    alloc: Global,
    store: &mut E,
    site: &Site,
    master: &Digest,
    me: NodeId,
) -> Result<(), SaveError>
    requires { is_named site.now.config me ≡ true }
    ensures saved { Changes (SavesUpTo site.now.config master.now (me ∷ []) result)
        (E.files store.old) (E.files store.new) }
    ensures cause { HasCause (E.faults store.old) (E.faults store.new) (ByFault result) }
{
    let name = key_file(alloc, me)?;
    let text = print_keys(alloc, site, master, me)?;
    match store.save(name.as_str(), &text) {
        Saved::Done => Ok(()),
        Saved::Failed => Err(SaveError::Fault(me)),
        Saved::Memory => Err(SaveError::Memory),
    }
}

//! Taking a key file.
ghost use Rattle.std.specs.Prelude.{◌≡◌, true, IfOk, IsErrAnd};
ghost use Rattle.cs_base.specs.Outside.{HasCause};
ghost use Rattle.cs_base.specs.declared.version.Version.TheVariants.{One};
ghost use Rattle.cs_io.specs.Told.{Stays};
ghost use Rattle.cs_deploy.specs.Taking.{IsStoreFault, TakesFiles, FilesCome};
ghost use Rattle.cs_deploy.specs.Files.{is_right, keys_taken};

use crate::cause::{Cause, Untaken};
use crate::loading::{load, refused, unread};
use cs_base::{Config, NodeId};
use cs_config::{FileField, Site, read_keys};
use cs_io::Store;
use cs_wire::Keys;
use std::alloc::Global;

/// Whose keys a command takes.
#[derive(Clone, Copy, Debug, PartialEq, Eq)]
pub enum Role {
    Node,
    Client,
}

fn is_right(role: Role, config: &Config, me: NodeId) -> bool
    ensures { result ≡ is_right role config.now me }
{
    match role {
        Role::Node => config.has_node(me),
        Role::Client => me.is_client(),
    }
}

/// The keys of the file of this name, which are those of one in this role, and of version 1.
pub fn take_keys<E: Store>(
    alloc: Global,
    store: &mut E,
    role: Role,
    site: &Site,
    name: &str,
) -> Result<Keys, Untaken>
    ensures taken { TakesFiles (FilesCome (keys_taken role site.now.config name.now))
        (E.files store.old) result }
    ensures first { IfOk result (λ keys. keys.version ≡ One) }
    ensures right { IfOk result (λ keys. is_right role site.now.config keys.me ≡ true) }
    ensures kept { Stays (E.files store.old) (E.files store.new) }
    ensures cause { HasCause (E.faults store.old) (E.faults store.new) (IsErrAnd result IsStoreFault) }
{
    let bytes = load(alloc, store, name)?;
    let keys = match read_keys(alloc, bytes.as_slice(), site) {
        Ok(keys) => keys,
        Err(error) => return Err(unread(alloc, name, error)),
    };
    if !is_right(role, &site.config, keys.me()) {
        return Err(refused(alloc, name, Cause::Limit(FileField::Me)));
    }
    Ok(keys)
}

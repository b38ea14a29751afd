//! Taking what a node or a client is set up by.
ghost use Rattle.std.specs.Prelude.{IfOk, IsErrAnd};
ghost use Rattle.cs_base.specs.Outside.{HasCause};
ghost use Rattle.cs_io.specs.Told.{Stays};
ghost use Rattle.cs_deploy.specs.Taking.{IsStoreFault, TakesFiles, FilesCome};
ghost use Rattle.cs_deploy.specs.Files.{setup_taken};
ghost use Rattle.cs_deploy.specs.Setups.{IsSoundSetup};

use crate::cause::{Cause, Untaken};
use crate::contracts::{book_of, take_texts};
use crate::genesis::has_twice;
use crate::keys::{Role, take_keys};
use crate::loading::refused;
use crate::sites::take_site;
use cs_approve::Book;
use cs_config::Site;
use cs_io::Store;
use cs_wire::Keys;
use std::alloc::Global;

/// What a node or a client is set up by.
#[derive(Drop)]
pub struct Setup {
    pub site: Site,
    /// The contracts of the site.
    pub book: Book,
    pub keys: Keys,
}

/// What one in this role is set up by.
pub fn take_setup<E: Store>(
    alloc: Global,
    store: &mut E,
    role: Role,
    site_name: &str,
    keys_name: &str,
) -> Result<Setup, Untaken>
    ensures taken { TakesFiles (FilesCome (setup_taken role site_name.now keys_name.now))
        (E.files store.old) result }
    ensures sound { IfOk result (IsSoundSetup role) }
    ensures kept { Stays (E.files store.old) (E.files store.new) }
    ensures cause { HasCause (E.faults store.old) (E.faults store.new) (IsErrAnd result IsStoreFault) }
{
    let site = take_site(alloc, store, site_name)?;
    let texts = take_texts(alloc, store, site.contracts.as_slice())?;
    if has_twice(alloc, site.genesis.as_slice())? {
        return Err(refused(alloc, site_name, Cause::Key));
    }
    let keys = take_keys(alloc, store, role, &site, keys_name)?;
    let book = book_of(alloc, texts.as_slice())?;
    Ok(Setup { site, book, keys })
}

/// What a node is set up by, of its site file and its key file.
pub fn take_node<E: Store>(
    alloc: Global,
    store: &mut E,
    site_name: &str,
    keys_name: &str,
) -> Result<Setup, Untaken>
    ensures taken { TakesFiles (FilesCome (setup_taken Role.Node site_name.now keys_name.now))
        (E.files store.old) result }
    ensures sound { IfOk result (IsSoundSetup Role.Node) }
    ensures kept { Stays (E.files store.old) (E.files store.new) }
    ensures cause { HasCause (E.faults store.old) (E.faults store.new) (IsErrAnd result IsStoreFault) }
{
    take_setup(alloc, store, Role::Node, site_name, keys_name)
}

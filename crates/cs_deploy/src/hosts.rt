//! Taking the hosts file of a node or a client, last of its files.
ghost use Rattle.std.specs.Prelude.{IfOk, IsErrAnd, option_copied};
ghost use Rattle.cs_base.specs.Outside.{HasCause};
ghost use Rattle.cs_io.specs.Told.{Stays};
ghost use Rattle.cs_deploy.specs.Taking.{IsStoreFault, TakesFiles, FilesCome};
ghost use Rattle.cs_deploy.specs.Hosts.{hosts_in_file, hosts_taken, NodeFilesCome, ClientFilesCome};
ghost use Rattle.cs_deploy.specs.Setups.{IsSoundSetup};

use crate::calls::take_client;
use crate::cause::Untaken;
use crate::keys::Role;
use crate::loading::{load, unread};
use crate::setups::{Setup, take_node};
use cs_base::Config;
use cs_config::{CallFile, Hosts, read_hosts};
use cs_io::Store;
use std::alloc::Global;

// What the hosts file of this name says.
fn take_file<E: Store>(
    alloc: Global,
    store: &mut E,
    config: &Config,
    name: &str,
) -> Result<Hosts, Untaken>
    ensures taken { TakesFiles (FilesCome (hosts_in_file config.now name.now)) (E.files store.old) result }
    ensures kept { Stays (E.files store.old) (E.files store.new) }
    ensures cause { HasCause (E.faults store.old) (E.faults store.new) (IsErrAnd result IsStoreFault) }
{
    let bytes = load(alloc, store, name)?;
    match read_hosts(alloc, bytes.as_slice(), config) {
        Ok(hosts) => Ok(hosts),
        Err(error) => Err(unread(alloc, name, error)),
    }
}

/// The same, where a file is named.
pub fn take_hosts<E: Store>(
    alloc: Global,
    store: &mut E,
    config: &Config,
    name: Option<&str>,
) -> Result<Option<Hosts>, Untaken>
    ensures taken { TakesFiles (FilesCome (hosts_taken config.now (option_copied name.entry)))
        (E.files store.old) result }
    ensures kept { Stays (E.files store.old) (E.files store.new) }
    ensures cause { HasCause (E.faults store.old) (E.faults store.new) (IsErrAnd result IsStoreFault) }
{
    match name {
        None => Ok(None),
        Some(name) => {
            let hosts = take_file(alloc, store, config, name)?;
            Ok(Some(hosts))
        }
    }
}

/// What a node is set up by, and where all are, where a hosts file is named.
pub(crate) fn take_node_files<E: Store>(
    alloc: Global,
    store: &mut E,
    site_name: &str,
    keys_name: &str,
    hosts_name: Option<&str>,
) -> Result<(Setup, Option<Hosts>), Untaken>
    ensures taken { TakesFiles (NodeFilesCome site_name.now keys_name.now (option_copied hosts_name.entry))
        (E.files store.old) result }
    ensures sound { IfOk result (λ both. IsSoundSetup Role.Node both.0) }
    ensures kept { Stays (E.files store.old) (E.files store.new) }
    ensures cause { HasCause (E.faults store.old) (E.faults store.new) (IsErrAnd result IsStoreFault) }
{
    let setup = take_node(alloc, store, site_name, keys_name)?;
    let hosts = take_hosts(alloc, store, &setup.site.config, hosts_name)?;
    Ok((setup, hosts))
}

/// What a client is set up by, its call, and where all are, where a hosts file is named.
pub(crate) fn take_client_files<E: Store>(
    alloc: Global,
    store: &mut E,
    site_name: &str,
    keys_name: &str,
    call_name: &str,
    hosts_name: Option<&str>,
) -> Result<((Setup, CallFile), Option<Hosts>), Untaken>
    ensures taken { TakesFiles
        (ClientFilesCome site_name.now keys_name.now call_name.now (option_copied hosts_name.entry))
        (E.files store.old) result }
    ensures kept { Stays (E.files store.old) (E.files store.new) }
    ensures cause { HasCause (E.faults store.old) (E.faults store.new) (IsErrAnd result IsStoreFault) }
{
    let both = take_client(alloc, store, site_name, keys_name, call_name)?;
    let hosts = take_hosts(alloc, store, &both.0.site.config, hosts_name)?;
    Ok((both, hosts))
}

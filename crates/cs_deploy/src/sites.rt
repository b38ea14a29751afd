//! Taking a site file, and a plan with the site that it names.
ghost use Rattle.std.specs.Prelude.{◌≡◌, ◌≤◌, IfOk, IsErrAnd, length};
ghost use Rattle.std.specs.List.{All};
ghost use Rattle.cs_base.specs.Outside.{HasCause};
ghost use Rattle.cs_base.specs.declared.limits.TheConstants.{MOST_GENESIS};
ghost use Rattle.cs_tx_value.specs.Object.{ObjectFits};
ghost use Rattle.cs_io.specs.Told.{Stays};
ghost use Rattle.cs_deploy.specs.Taking.{IsStoreFault, TakesFiles, FilesCome};
ghost use Rattle.cs_deploy.specs.Files.{site_taken, plan_taken, cluster_taken};

use crate::cause::Untaken;
use crate::loading::{load, unread};
use cs_config::{Plan, Site, read_plan, read_site};
use cs_io::Store;
use std::alloc::Global;

/// The site of the file of this name, which is of version 1. Whether its contracts and its genesis
/// serve is asked by who takes a setup.
pub fn take_site<E: Store>(alloc: Global, store: &mut E, name: &str) -> Result<Site, Untaken>
    ensures taken { TakesFiles (FilesCome (site_taken name.now)) (E.files store.old) result }
    ensures version { IfOk result (λ site. site.config.version ≡ 1) }
    ensures objects { IfOk result (λ site. All ObjectFits site.genesis) }
    ensures few_objects { IfOk result (λ site. length site.genesis ≤ MOST_GENESIS) }
    ensures kept { Stays (E.files store.old) (E.files store.new) }
    ensures cause { HasCause (E.faults store.old) (E.faults store.new) (IsErrAnd result IsStoreFault) }
{
    let bytes = load(alloc, store, name)?;
    match read_site(alloc, bytes.as_slice()) {
        Ok(site) => Ok(site),
        Err(error) => Err(unread(alloc, name, error)),
    }
}

// The plan of the file of this name.
fn take_plan<E: Store>(alloc: Global, store: &mut E, name: &str) -> Result<Plan, Untaken>
    ensures taken { TakesFiles (FilesCome (plan_taken name.now)) (E.files store.old) result }
    ensures kept { Stays (E.files store.old) (E.files store.new) }
    ensures cause { HasCause (E.faults store.old) (E.faults store.new) (IsErrAnd result IsStoreFault) }
{
    let bytes = load(alloc, store, name)?;
    match read_plan(alloc, bytes.as_slice()) {
        Ok(plan) => Ok(plan),
        Err(error) => Err(unread(alloc, name, error)),
    }
}

/// The plan of the file of this name, and the site that it names.
pub fn take_cluster<E: Store>(
    alloc: Global,
    store: &mut E,
    name: &str,
) -> Result<(Plan, Site), Untaken>
    ensures taken { TakesFiles (FilesCome (cluster_taken name.now)) (E.files store.old) result }
    ensures kept { Stays (E.files store.old) (E.files store.new) }
    ensures cause { HasCause (E.faults store.old) (E.faults store.new) (IsErrAnd result IsStoreFault) }
{
    let plan = take_plan(alloc, store, name)?;
    let site = take_site(alloc, store, plan.site.as_str())?;
    Ok((plan, site))
}

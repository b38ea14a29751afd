//! Taking what a client is set up by, and its call.
ghost use Rattle.std.specs.Prelude.{IfOk, IsErrAnd};
ghost use Rattle.std.specs.List.{AllByRecursion};
ghost use Rattle.cs_base.specs.Outside.{HasCause};
ghost use Rattle.cs_tx_value.specs.Encoding.{ValueFits};
ghost use Rattle.cs_io.specs.Told.{Stays};
ghost use Rattle.cs_deploy.specs.Taking.{IsStoreFault, TakesFiles};
ghost use Rattle.cs_deploy.specs.Calls.{CallComes, ClientComes};
ghost use Rattle.cs_deploy.specs.Setups.{IsSoundSetup};

use crate::cause::Untaken;
use crate::keys::Role;
use crate::loading::{load, unread};
use crate::setups::{Setup, take_setup};
use cs_config::{CallFile, read_call};
use cs_io::Store;
use std::alloc::Global;

// The call of the file of this name.
fn take_call<E: Store>(alloc: Global, store: &mut E, name: &str) -> Result<CallFile, Untaken>
    ensures taken { TakesFiles (CallComes name.now) (E.files store.old) result }
    ensures fit { IfOk result (λ call. AllByRecursion ValueFits call.args) }
    ensures kept { Stays (E.files store.old) (E.files store.new) }
    ensures cause { HasCause (E.faults store.old) (E.faults store.new) (IsErrAnd result IsStoreFault) }
{
    let bytes = load(alloc, store, name)?;
    match read_call(alloc, bytes.as_slice()) {
        Ok(call) => Ok(call),
        Err(error) => Err(unread(alloc, name, error)),
    }
}

/// What a client is set up by, of its site file and its key file, and the call of its call file.
pub fn take_client<E: Store>(
    alloc: Global,
    store: &mut E,
    site_name: &str,
    keys_name: &str,
    call_name: &str,
) -> Result<(Setup, CallFile), Untaken>
    ensures taken { TakesFiles (ClientComes site_name.now keys_name.now call_name.now)
        (E.files store.old) result }
    ensures sound { IfOk result (λ both. IsSoundSetup Role.Client both.0) }
    ensures fit { IfOk result (λ both. AllByRecursion ValueFits both.1.args) }
    ensures kept { Stays (E.files store.old) (E.files store.new) }
    ensures cause { HasCause (E.faults store.old) (E.faults store.new) (IsErrAnd result IsStoreFault) }
{
    let setup = take_setup(alloc, store, Role::Client, site_name, keys_name)?;
    let call = take_call(alloc, store, call_name)?;
    Ok((setup, call))
}

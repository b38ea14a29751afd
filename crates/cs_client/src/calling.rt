//! Running the method of a call, or taking the transaction that stands in its place.
ghost use Rattle.std.specs.Prelude.{◌≡◌, IfOk, IfSome};
ghost use Rattle.cs_tx_types.specs.Transaction.{TxFits};
ghost use Rattle.cs_client.specs.Calls.{call_on, given_tx, ran_with};
ghost use Rattle.cs_client.specs.Seen.{TakesTransaction};

use crate::beliefs::Objects;
use crate::errand::Errand;
use cs_base::{Memory, Sequence};
use cs_config::{CallFile, decode_transaction};
use cs_proc::{Call, ProcError, run_method};
use cs_tx_types::Tx;
use cs_tx_value::copy_each;
use std::alloc::Global;

// The call of a method on these objects.
fn call_on(alloc: Global, call: &CallFile, objects: Objects) -> Result<Call, Memory>
    ensures { IfOk result (λ made. made ≡ call_on call.now objects.inputs objects.reads) }
{
    let method = Vec::from_slice(alloc, call.method.as_str().as_bytes())?;
    Ok(Call {
        contract: call.contract,
        method: Sequence::from_vec(method),
        inputs: objects.inputs,
        reads: objects.reads,
        args: copy_each(alloc, &call.args)?,
    })
}

// The transaction that the call file has, as it stands.
fn given_tx(alloc: Global, call: &CallFile) -> Result<Option<Tx>, Memory>
    ensures given { IfOk result (λ tx. tx ≡ given_tx call.now) }
    ensures fits { IfOk result (λ tx. IfSome tx TxFits) }
{
    match &call.transaction {
        Some(bytes) => decode_transaction(alloc, bytes.as_slice()),
        None => Ok(None),
    }
}

/// Takes the transaction that the call file has; else runs the method on the objects that are
/// believed.
pub fn run_on(alloc: Global, errand: &Errand, objects: Objects) -> Result<Tx, ProcError>
    ensures { TakesTransaction errand.now
        (ran_with errand.now (call_on errand.now.call objects.inputs objects.reads)) result }
{
    if let Some(tx) = given_tx(alloc, &errand.call)? {
        return Ok(tx);
    }
    let call = call_on(alloc, &errand.call, objects)?;
    run_method(alloc, &errand.book, &call)
}

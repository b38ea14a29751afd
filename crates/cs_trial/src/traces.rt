//! What the procedure of a case makes, whatever the checks say of it.
ghost use Rattle.std.specs.Prelude.{◌≡◌, IfOk};
ghost use Rattle.cs_proc.specs.Calling.{numbered_ran};
ghost use Rattle.cs_proc.specs.Answering.{RunAnswers};
ghost use Rattle.cs_types_kinds.specs.Lookups.{method_number};
ghost use Rattle.cs_trial.specs.Outcomes.{call_of};

use cs_base::{Memory, Sequence};
use cs_cases::Case;
use cs_lang::ContractTree;
use cs_proc::{Call, ProcError, run_in};
use cs_tx_types::Trace;
use cs_tx_value::{Digest, copy_each};
use std::alloc::Global;

// A case as a call of the contract with this id.
fn call_of(alloc: Global, id: &Digest, case: &Case) -> Result<Call, Memory>
    ensures { IfOk result (λ call. call ≡ call_of id.now case.now) }
{
    let method = Vec::from_slice(alloc, case.method.as_slice())?;
    Ok(Call {
        contract: *id,
        method: Sequence::from_vec(method),
        inputs: copy_each(alloc, &case.inputs)?,
        reads: copy_each(alloc, &case.references)?,
        args: copy_each(alloc, &case.arguments)?,
    })
}

/// The traces of the method of a case and of those that it calls, in the contract with this id.
pub fn run_case(
    alloc: Global,
    contract: &ContractTree,
    id: &Digest,
    case: &Case,
) -> Result<Sequence<Trace>, ProcError>
    ensures { RunAnswers (numbered_ran contract.now (call_of id.now case.now)
        (method_number case.now.method contract.now.methods)) result }
{
    let call = call_of(alloc, id, case)?;
    run_in(alloc, contract, &call)
}

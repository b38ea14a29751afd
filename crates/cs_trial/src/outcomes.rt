//! What cases come to.
ghost use Rattle.std.specs.Prelude.{◌≡◌, ◌+◌, ◌∷◌, [], IfOk};
ghost use Rattle.cs_eval_law.specs.Checks.{check_cost};
ghost use Rattle.cs_trial.specs.declared.outcome.Outcome.TheVariants.{Args};
ghost use Rattle.cs_trial.specs.Outcomes.{checks_say, TracesTell, case_ran, RunTells, given_trace, CaseTells};

use crate::outcome::Outcome;
use crate::traces::run_case;
use cs_approve::lend_view;
use cs_base::{Memory, Sequence};
use cs_cases::{Asked, Case};
use cs_eval_place::{Verdict, check_verdict};
use cs_proc::ProcError;
use cs_tx_types::{Trace, Tx};
use cs_tx_value::{Digest, Encoded, Object, Value, copy_each};
use cs_types::Checked;
use cs_types_kinds::method_number;
use std::alloc::Global;

// What the check of a method may cost.
fn check_cost(checked: &Checked, method: &[u8]) -> u64
    ensures { result ≡ check_cost checked.now method.now }
{
    let methods = checked.contract().tree().methods.as_slice();
    let Some(number) = method_number(methods, method) else {
        return 0;
    };
    match checked.costs().get(number) {
        Some(costs) => costs.check,
        None => 0,
    }
}

// A cost and that of one check more. More than can be counted is more than there is memory for.
fn cost_with(checked: &Checked, trace: &Trace, cost: u64) -> Result<u64, Memory>
    ensures { IfOk result (λ sum. sum ≡ cost + check_cost checked.now trace.now.method) }
{
    cost.checked_add(check_cost(checked, trace.method.as_slice()))
        .ok_or(Memory)
}

// What the checks of traces say.
fn checks_say(alloc: Global, checked: &Checked, traces: &[Trace]) -> Result<Outcome, Memory>
    ensures { IfOk result (λ outcome. outcome ≡ checks_say checked.now traces.now 0 traces.now) }
{
    let mut cost = 0;
    for trace in traces {
        let view = lend_view(alloc, traces, trace)?;
        match check_verdict(alloc, checked, trace.method.as_slice(), &view)? {
            Verdict::Yes => cost = cost_with(checked, trace, cost)?,
            Verdict::No(place) => return Ok(Outcome::No(place)),
            Verdict::Trap(place) => return Ok(Outcome::Trap(place)),
        }
    }
    Ok(Outcome::Yes(cost))
}

// What is told of traces, and those that were asked of.
fn tell_traces(
    alloc: Global,
    checked: &Checked,
    traces: Sequence<Trace>,
) -> Result<(Outcome, Sequence<Trace>), Memory>
    ensures { IfOk result (λ told. TracesTell checked.now traces told.0 told.1) }
{
    let tx = Tx { traces };
    if !tx.fits() {
        return Ok((Outcome::Large, Sequence::new(alloc)));
    }
    let outcome = checks_say(alloc, checked, tx.traces.as_slice())?;
    Ok((outcome, tx.traces))
}

// What is told where objects or arguments don't fit.
fn misfit(alloc: Global) -> (Outcome, Sequence<Trace>)
    ensures outcome { result.0 ≡ Args }
    ensures made { result.1 ≡ [] }
{
    (Outcome::Args, Sequence::new(alloc))
}

// What is told of the procedure's run.
fn tell_run(
    alloc: Global,
    checked: &Checked,
    id: &Digest,
    case: &Case,
) -> Result<(Outcome, Sequence<Trace>), Memory>
    ensures { IfOk result (λ told.
        RunTells checked.now (case_ran checked.now id.now case.now) told.0 told.1) }
{
    match run_case(alloc, checked.contract().tree(), id, case) {
        Ok(traces) => tell_traces(alloc, checked, traces),
        Err(ProcError::Trap(place)) => Ok((Outcome::Trap(place), Sequence::new(alloc))),
        Err(ProcError::NoMethod) => Ok(misfit(alloc)),
        Err(ProcError::BadArgs) => Ok(misfit(alloc)),
        Err(ProcError::TooLarge) => Ok(misfit(alloc)),
        Err(ProcError::CheckerNo(_)) => Ok(misfit(alloc)),
        Err(ProcError::Memory) => Err(Memory),
    }
}

// The trace that is given.
fn given_trace(
    alloc: Global,
    id: &Digest,
    case: &Case,
    outputs: &Sequence<Object>,
    returns: &Sequence<Value>,
) -> Result<Trace, Memory>
    ensures { IfOk result (λ trace.
        trace ≡ given_trace id.now case.now outputs.now returns.now) }
{
    Ok(Trace {
        contract: *id,
        method: case.method.copy(alloc)?,
        inputs: copy_each(alloc, &case.inputs)?,
        references: copy_each(alloc, &case.references)?,
        parameters: copy_each(alloc, &case.arguments)?,
        outputs: copy_each(alloc, outputs)?,
        returns: copy_each(alloc, returns)?,
        deps: Sequence::new(alloc),
    })
}

// What is told of a trace that is given.
fn tell_given(
    alloc: Global,
    checked: &Checked,
    id: &Digest,
    case: &Case,
    outputs: &Sequence<Object>,
    returns: &Sequence<Value>,
) -> Result<(Outcome, Sequence<Trace>), Memory>
    ensures { IfOk result (λ told. TracesTell checked.now
        (given_trace id.now case.now outputs.now returns.now ∷ []) told.0 told.1) }
{
    let mut traces = Sequence::new(alloc);
    traces.push(given_trace(alloc, id, case, outputs, returns)?)?;
    tell_traces(alloc, checked, traces)
}

/// What a case of the contract with this id comes to, and the traces that were asked of.
pub fn tell_case(
    alloc: Global,
    checked: &Checked,
    id: &Digest,
    case: &Case,
) -> Result<(Outcome, Sequence<Trace>), Memory>
    ensures { IfOk result (λ told. CaseTells checked.now id.now case.now told.0 told.1) }
{
    match &case.asked {
        Asked::Shown => tell_run(alloc, checked, id, case),
        Asked::Made(_) => tell_run(alloc, checked, id, case),
        Asked::Given(outputs, returns, _) => {
            tell_given(alloc, checked, id, case, outputs, returns)
        }
    }
}

//! The limits of traces and of a transaction.
ghost use Rattle.std.specs.Prelude.{◌≡◌, ◌+◌, ◌^◌, ◌<◌, ◌≤◌, ◌↔◌, None, IsTrue, IfOk, length};
ghost use Rattle.cs_tx_types.specs.Transaction.{TxFits};
ghost use Rattle.cs_transact.specs.Refusing.{Unless};
ghost use Rattle.cs_transact.specs.Fitting.{FieldFits, IsFirstPast, IsPast};
ghost use Rattle.cs_transact.specs.Says.{IsFew, Come};

use crate::formed::formed;
use crate::refusal::{FIELDS, Refusal, TextError, TraceField};
use cs_base::{MOST_TX, Sequence};
use cs_tx_types::{MOST_DEPS, MOST_TRACE_OBJECTS, MOST_TRACE_VALUES, Trace, Tx};
use cs_tx_value::{Encoded, few_fit};
use std::alloc::Global;

// Whether the field keeps to the limits of traces.
fn field_fits(trace: &Trace, field: TraceField) -> bool
    ensures { IsTrue result ↔ FieldFits field trace.now }
{
    match field {
        TraceField::Contract => trace.contract.fits(),
        TraceField::Method => trace.method.fits(),
        TraceField::Inputs => few_fit(&trace.inputs, MOST_TRACE_OBJECTS),
        TraceField::References => few_fit(&trace.references, MOST_TRACE_OBJECTS),
        TraceField::Outputs => few_fit(&trace.outputs, MOST_TRACE_OBJECTS),
        TraceField::Parameters => few_fit(&trace.parameters, MOST_TRACE_VALUES),
        TraceField::Returns => few_fit(&trace.returns, MOST_TRACE_VALUES),
        TraceField::Deps => few_fit(&trace.deps, MOST_DEPS),
    }
}

// The first of these fields that doesn't keep to them.
fn first_past(trace: &Trace, fields: &[TraceField]) -> Option<TraceField>
    ensures { IsFirstPast trace.now fields.now result }
{
    match fields {
        [] => None,
        [first, later @ ..] => {
            if field_fits(trace, *first) {
                first_past(trace, later)
            } else {
                Some(*first)
            }
        }
    }
}

// The refusal of the first of these traces that doesn't keep to its limits.
fn limit_past(number: usize, traces: &[Trace]) -> Option<Refusal>
    requires { number + length traces.now < 2 ^ 64 }
    ensures { IsPast number traces.now result }
{
    match traces {
        [] => None,
        [first, later @ ..] => match first_past(first, FIELDS.as_slice()) {
            Some(field) => Some(Refusal::Limit(number, field)),
            None => limit_past(number + 1, later),
        },
    }
}

// The transaction of traces within their limits, or why they are none.
fn small_enough(alloc: Global, traces: Sequence<Trace>) -> Result<Tx, TextError>
    requires few { IsFew traces }
    requires within { IsPast 0 traces None }
    ensures comes { Unless (Come traces) result }
    ensures fits { IfOk result TxFits }
{
    let tx = Tx { traces };
    match tx.room(MOST_TX) {
        Some(_) => formed(alloc, tx),
        None => Err(TextError::Refused(Refusal::Large)),
    }
}

/// The transaction of these traces, or the first cause why they are none.
pub(crate) fn fitting(alloc: Global, traces: Sequence<Trace>) -> Result<Tx, TextError>
    requires { IsFew traces }
    ensures comes { Unless (Come traces) result }
    ensures fits { IfOk result TxFits }
{
    match limit_past(0, traces.as_slice()) {
        Some(refusal) => Err(TextError::Refused(refusal)),
        None => small_enough(alloc, traces),
    }
}

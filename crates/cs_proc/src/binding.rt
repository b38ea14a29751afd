//! What a method that was called leaves to its caller.
ghost use Rattle.std.specs.Prelude.{◌≡◌, slice_get, IfOk};
ghost use Rattle.std.specs.Option.{option_copied};
ghost use Rattle.cs_eval_values.specs.Filling.{Fills};
ghost use Rattle.cs_proc_parts.specs.Courses.{MakesCourse};
ghost use Rattle.cs_proc.specs.Acting.{last_number, dep_number_of, returns_of, last_returns, name_bound, names_bound, called_back};

use cs_base::Memory;
use cs_eval_values::{Cause, Held, Names};
use cs_lang::{Field, Text};
use cs_proc_parts::{Doing, Ending, Halt, Progress};
use cs_tx_types::Trace;
use cs_tx_value::Value;
use cs_types_kinds::kind_of;
use std::alloc::Global;

/// The number of the last trace.
fn last_number(traces: &[Trace]) -> usize
    ensures { result ≡ last_number traces.now }
{
    traces.len().saturating_sub(1)
}

/// A number of a trace as a dep.
fn dep_of(number: usize) -> u8
    ensures { result ≡ dep_number_of number }
{
    number.min(255) as u8
}

/// What the method of the last trace returned.
fn last_returns(traces: &[Trace]) -> &[Value]
    ensures { result.now ≡ last_returns traces.now }
{
    match traces.get(last_number(traces)) {
        Some(trace) => trace.returns.as_slice(),
        None => &[],
    }
}

/// A name for a returned value.
fn bind_name<'a>(
    alloc: Global,
    name: &'a Text,
    field: Option<&Field>,
    value: Option<&Value>,
    names: &mut Names<'a>,
) -> Result<bool, Memory>
    ensures { IfOk result (λ fits. Fills fits names.new
        (name_bound name.now (option_copied field.entry) (option_copied value.entry) names.old)) }
{
    match (field, value) {
        (Some(field), Some(value)) => match kind_of(&field.kind) {
            Some(kind) => {
                let held = Held::own(alloc, value)?;
                names.add(name.bytes.as_slice(), name.place, kind, held)?;
                Ok(true)
            }
            None => Ok(false),
        },
        _ => Ok(false),
    }
}

/// Names for returned values.
fn bind_names<'a>(
    alloc: Global,
    bound: &'a [Text],
    fields: &[Field],
    values: &[Value],
    names: &mut Names<'a>,
) -> Result<bool, Memory>
    ensures { IfOk result (λ fits. Fills fits names.new
        (names_bound fields.now values.now 0 bound.now names.old)) }
{
    for i in 0..bound.len() {
        if !bind_name(alloc, &bound[i], fields.get(i), values.get(i), names)? {
            return Ok(false);
        }
    }
    Ok(true)
}

/// The caller goes on behind the call with this place.
pub fn call_back<'a>(
    alloc: Global,
    bound: &'a [Text],
    fields: &[Field],
    place: usize,
    doing: &mut Doing<'a>,
    progress: Progress<'a>,
) -> Result<(), Halt>
    ensures { MakesCourse result 0
        (called_back bound.now fields.now place doing.old progress.entry) doing.new }
{
    let traces = progress.traces.as_slice();
    let returns = last_returns(traces);
    if !bind_names(alloc, bound, fields, returns, &mut doing.names)? {
        return Err(Halt::End(Ending::Trap(Cause::Misfit, place)));
    }
    doing.deps.push(dep_of(last_number(traces)))?;
    doing.progress = progress;
    Ok(())
}

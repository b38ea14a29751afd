//! How a method ends.
ghost use Rattle.std.specs.Prelude.{◌≡◌, [], IfOk};
ghost use Rattle.cs_proc_parts.specs.Courses.{CourseComes};
ghost use Rattle.cs_proc_parts.specs.Closing.{value_named, values_returned, closed};

use crate::ending::{Ending, Halt};
use crate::progress::{Doing, Front, Progress};
use cs_base::{Memory, Sequence};
use cs_eval_values::{Cause, Names};
use cs_lang::{Field, Method};
use cs_tx_types::Trace;
use cs_tx_value::{Digest, Name, Value};
use std::alloc::Global;

/// The value of a name.
fn value_named(
    alloc: Global,
    names: &Names<'_>,
    name: &[u8],
    offset: usize,
) -> Result<Option<Value>, Memory>
    ensures { IfOk result (λ value. value ≡ value_named names.now name.now) }
{
    match names.find(name, offset)? {
        Some(held) => held.value(alloc),
        None => Ok(None),
    }
}

/// The values of returned fields.
fn values_returned(
    alloc: Global,
    names: &Names<'_>,
    fields: &[Field],
) -> Result<Option<Sequence<Value>>, Memory>
    ensures { IfOk result (λ values. values ≡ values_returned names.now [] fields.now) }
{
    let mut values = Sequence::new(alloc);
    for field in fields {
        match value_named(alloc, names, field.name.bytes.as_slice(), field.name.place)? {
            Some(value) => values.push(value)?,
            None => return Ok(None),
        }
    }
    Ok(Some(values))
}

/// Ends a method at its closing brace, and adds its trace behind the others.
pub fn close<'a>(
    alloc: Global,
    contract: &Digest,
    method: &Method,
    front: Front,
    doing: Doing<'a>,
) -> Result<Progress<'a>, Halt>
    ensures { CourseComes result 0 (closed contract.now method.now front doing.entry) }
{
    if !doing.made.are_filled() {
        return Err(Halt::End(Ending::Unfilled(method.end)));
    }
    let Some(returns) = values_returned(alloc, &doing.names, method.returns.as_slice())? else {
        return Err(Halt::End(Ending::Trap(Cause::Misfit, method.end)));
    };
    let mut progress = doing.progress;
    progress.traces.push(Trace {
        contract: *contract,
        method: Name::from_vec(Vec::from_slice(alloc, method.name.bytes.as_slice())?),
        inputs: front.inputs,
        references: front.references,
        parameters: front.parameters,
        outputs: doing.made.into_objects(alloc)?,
        returns,
        deps: doing.deps,
    })?;
    Ok(progress)
}

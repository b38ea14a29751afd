//! How a method begins.
ghost use Rattle.std.specs.Prelude.{◌≡◌, IfOk};
ghost use Rattle.cs_eval_values.specs.Filling.{Fills, field_filled, fields_filled};
ghost use Rattle.cs_proc_parts.specs.Beginning.{zero_of, taken, field_started, fields_started, begun, opened_method};
ghost use Rattle.cs_proc_parts.specs.Taking.{TakesObjects};

use crate::keyed::Keyed;
use crate::outputs::Outputs;
use crate::progress::{Doing, Front, Opened, Progress};
use cs_base::{Memory, Sequence};
use cs_eval_values::{Held, Names, fill_slot, has_kind};
use cs_lang::{Field, Method, Slot, TypeDef};
use cs_tx_value::{Digest, Value};
use cs_types_kinds::{Base, Kind, kind_of};
use std::alloc::Global;

/// What a method begins with: its names, and how many objects it took from the front.
#[derive(Drop)]
struct Begun<'a> {
    names: Names<'a>,
    inputs: usize,
    reads: usize,
}

/// Fills slots from the front, and answers how many objects they take.
fn take<'a>(
    alloc: Global,
    contract: &Digest,
    types: &[TypeDef],
    slots: &'a [Slot],
    keyed: &Keyed<'a>,
    names: &mut Names<'a>,
) -> Result<Option<usize>, Memory>
    ensures { IfOk result (λ count. TakesObjects count names.new
        (taken contract.now types.now slots.now keyed.now names.old)) }
{
    let mut left = keyed.objects();
    for slot in slots {
        match fill_slot(alloc, contract, types, slot, &left, names)? {
            Some(count) => left = left.behind(count),
            None => return Ok(None),
        }
    }
    Ok(Some(keyed.len().saturating_sub(left.len())))
}

/// Fills a taken field with an argument.
fn fill_argument<'a>(
    alloc: Global,
    field: &'a Field,
    argument: &Value,
    names: &mut Names<'a>,
) -> Result<bool, Memory>
    ensures { IfOk result (λ fits. Fills fits names.new
        (field_filled field.now argument.now names.old)) }
{
    match kind_of(&field.kind) {
        Some(kind) => {
            if !has_kind(Some(kind), argument) {
                return Ok(false);
            }
            let held = Held::own(alloc, argument)?;
            names.add(field.name.bytes.as_slice(), field.name.place, kind, held)?;
            Ok(true)
        }
        None => Ok(false),
    }
}

/// Fills taken fields with arguments, of which there are as many.
fn fill_arguments<'a>(
    alloc: Global,
    fields: &'a [Field],
    arguments: &[Value],
    names: &mut Names<'a>,
) -> Result<bool, Memory>
    ensures { IfOk result (λ fits. Fills fits names.new
        (fields_filled fields.now arguments.now names.old)) }
{
    if arguments.len() != fields.len() {
        return Ok(false);
    }
    for i in 0..fields.len() {
        if !fill_argument(alloc, &fields[i], &arguments[i], names)? {
            return Ok(false);
        }
    }
    Ok(true)
}

/// What a returned field of this kind begins as.
fn zero_of(alloc: Global, kind: Kind) -> Value
    ensures { result ≡ zero_of kind }
{
    match kind {
        Kind::Value(Base::Int, 0) => Value::Int(0),
        Kind::Value(Base::Bool, 0) => Value::Bool(false),
        Kind::Value(Base::Bytes, 0) => Value::Bytes(Sequence::new(alloc)),
        _ => Value::List(Sequence::new(alloc)),
    }
}

/// A returned field begins.
fn start_field<'a>(alloc: Global, field: &'a Field, names: &mut Names<'a>) -> Result<bool, Memory>
    ensures { IfOk result (λ fits. Fills fits names.new (field_started field.now names.old)) }
{
    match kind_of(&field.kind) {
        Some(kind) => {
            let held = Held::own(alloc, &zero_of(alloc, kind))?;
            names.add(field.name.bytes.as_slice(), field.name.place, kind, held)?;
            Ok(true)
        }
        None => Ok(false),
    }
}

/// Returned fields begin.
fn start_fields<'a>(
    alloc: Global,
    fields: &'a [Field],
    names: &mut Names<'a>,
) -> Result<bool, Memory>
    ensures { IfOk result (λ fits. Fills fits names.new (fields_started fields.now names.old)) }
{
    for field in fields {
        if !start_field(alloc, field, names)? {
            return Ok(false);
        }
    }
    Ok(true)
}

/// What a method begins with, where the arguments and the objects that are left fit it.
fn begin<'a>(
    alloc: Global,
    contract: &Digest,
    types: &[TypeDef],
    method: &'a Method,
    arguments: &[Value],
    progress: &Progress<'a>,
) -> Result<Option<Begun<'a>>, Memory>
    ensures { IfOk result (λ found. found
        ≡ begun contract.now types.now method.now arguments.now progress.now) }
{
    let mut names = Names::new(alloc);
    let consumes = method.consumes.as_slice();
    let Some(inputs) = take(
        alloc,
        contract,
        types,
        consumes,
        &progress.inputs,
        &mut names,
    )?
    else {
        return Ok(None);
    };
    let Some(reads) = take(
        alloc,
        contract,
        types,
        method.reads.as_slice(),
        &progress.reads,
        &mut names,
    )?
    else {
        return Ok(None);
    };
    let fits = fill_arguments(alloc, method.takes.as_slice(), arguments, &mut names)?
        && start_fields(alloc, method.returns.as_slice(), &mut names)?;
    if fits {
        return Ok(Some(Begun {
            names,
            inputs,
            reads,
        }));
    }
    Ok(None)
}

/// A method before its first statement, where the arguments and the objects that are left fit it.
pub fn open<'a>(
    alloc: Global,
    contract: &Digest,
    types: &[TypeDef],
    method: &'a Method,
    arguments: Sequence<Value>,
    progress: Progress<'a>,
) -> Result<Option<Opened<'a>>, Memory>
    ensures { IfOk result (λ found. found
        ≡ opened_method contract.now types.now method.now arguments progress.entry) }
{
    let Some(begun) = begin(
        alloc,
        contract,
        types,
        method,
        arguments.as_slice(),
        &progress,
    )?
    else {
        return Ok(None);
    };
    let front = Front {
        inputs: progress.inputs.copy_front(alloc, begun.inputs)?,
        references: progress.reads.copy_front(alloc, begun.reads)?,
        parameters: arguments,
    };
    let doing = Doing {
        names: begun.names,
        made: Outputs::new(alloc, method.creates.as_slice())?,
        deps: Sequence::new(alloc),
        progress: Progress {
            inputs: progress.inputs.behind(begun.inputs),
            reads: progress.reads.behind(begun.reads),
            traces: progress.traces,
        },
    };
    Ok(Some(Opened { front, doing }))
}

//! Fields of objects, and deps.
ghost use Rattle.std.specs.Prelude.{◌≡◌, position, slice_get, IfOk};
ghost use Rattle.std.specs.Option.{option_copied};
ghost use Rattle.cs_types_kinds.specs.Lookups.{is_field};
ghost use Rattle.cs_eval_values.specs.Answers.{RunEnds};
ghost use Rattle.cs_eval_shared.specs.Parts.{int_in};
ghost use Rattle.cs_tx_value.specs.declared.value.Value.{out-Value};
ghost use Rattle.cs_eval_values.specs.Views.{type_named, field_place, field_in, field_of as field_run, is_called as is_called_in, int_of_value, returned, returned_int as returned_run};

use crate::held::Held;
use crate::stop::{Cause, Stop};
use crate::view::LentView;
use cs_base::Memory;
use cs_eval_shared::{Shared, SharedObject};
use cs_lang::{Field, TypeDef};
use cs_tx_value::Value;

/// The type of this name.
pub fn type_named<'a>(types: &'a [TypeDef], name: &[u8]) -> Option<&'a TypeDef>
    ensures { option_copied result ≡ type_named name.now types.now }
{
    for typedef in types {
        if typedef.name.bytes.as_slice() == name {
            return Some(typedef);
        }
    }
    None
}

fn place_of(fields: &[Field], name: &[u8]) -> Option<usize>
    ensures { result ≡ position (is_field name.now) fields.now }
{
    fields
        .iter()
        .position(|field| field.name.bytes.as_slice() == name)
}

/// The place of the field of this name in an object of the type.
fn field_place(types: &[TypeDef], name: &[u8], type_name: &[u8]) -> Option<usize>
    ensures { result ≡ field_place name.now (type_named type_name.now types.now) }
{
    let typedef = type_named(types, type_name)?;
    place_of(typedef.fields.as_slice(), name)
}

/// The value of the field of this name.
fn field_in<'a>(
    types: &[TypeDef],
    name: &[u8],
    kept: &SharedObject<'a>,
) -> Result<Option<Shared<'a>>, Memory>
    ensures { IfOk result (λ found. found ≡ field_in types.now name.now kept.now) }
{
    match field_place(types, name, kept.object().type_name.as_slice()) {
        Some(place) => kept.value(place),
        None => Ok(None),
    }
}

/// The field of this name.
pub fn field_of<'a>(
    types: &[TypeDef],
    name: &[u8],
    held: &Held<'a>,
    place: usize,
) -> Result<Held<'a>, Stop>
    ensures { RunEnds result (field_run types.now name.now place held.now) }
{
    match held.as_object() {
        Some(object) => match field_in(types, name, object)? {
            Some(value) => Ok(Held::plain(value)),
            None => Err(Stop::Trap(Cause::Misfit, place)),
        },
        None => Err(Stop::Trap(Cause::Misfit, place)),
    }
}

/// Whether the trace of a dep has this contract and the method.
pub fn is_called(view: &LentView<'_>, dep: u64, method: &[u8]) -> bool
    ensures { result ≡ is_called_in view.now dep method.now }
{
    match view.dep(dep) {
        Some(dep) => {
            dep.contract.as_slice() == view.contract().as_slice() && dep.method == method
        }
        None => false,
    }
}

/// The int that a value is, if it is one.
fn value_int(value: &Value) -> Option<i64>
    ensures { result ≡ int_in (out-Value value.now) }
{
    match value {
        Value::Int(number) => Some(*number),
        _ => None,
    }
}

/// A returned int of a dep.
fn int_returned(view: &LentView<'_>, dep: u64, place: u64) -> Option<i64>
    ensures { result ≡ int_of_value (returned (slice_get view.now.deps dep) place) }
{
    let dep = view.dep(dep)?;
    match usize::try_from(place) {
        Ok(place) => value_int(dep.returns.get(place)?),
        Err(_) => None,
    }
}

/// A returned int of a dep.
pub fn returned_int<'a>(
    view: &LentView<'_>,
    dep: u64,
    value: u64,
    place: usize,
) -> Result<Held<'a>, Stop>
    ensures { RunEnds result (returned_run view.now dep value place) }
{
    match int_returned(view, dep, value) {
        Some(number) => Ok(Held::int(number)),
        None => Err(Stop::Trap(Cause::Dep, place)),
    }
}

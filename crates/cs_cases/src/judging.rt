//! Which cases are of a contract.
ghost use Rattle.std.specs.Prelude.{◌≡◌};
ghost use Rattle.std.specs.List.{list_all};
ghost use Rattle.std.specs.Option.{option_copied};
ghost use Rattle.cs_eval_values.specs.Views.{type_named};
ghost use Rattle.cs_eval_values.specs.Filling.{values_fit};
ghost use Rattle.cs_cases.specs.Judging.{is_typed, is_typed_keyed, outputs_typed, objects_typed, cause_of_case};

use crate::case::{Asked, Case};
use crate::text::Cause;
use cs_eval_values::has_kind;
use cs_lang::{ContractTree, Field, TypeDef};
use cs_tx_value::{Digest, Object, Value};
use cs_types_kinds::{kind_of, method_number};

// The type of this name.
fn type_named<'a>(types: &'a [TypeDef], name: &[u8]) -> Option<&'a TypeDef>
    ensures { option_copied result ≡ type_named name.now types.now }
{
    for typedef in types {
        if typedef.name.bytes.as_slice() == name {
            return Some(typedef);
        }
    }
    None
}

// Whether there are as many values as fields, each of the declared kind.
fn values_fit(fields: &[Field], values: &[Value]) -> bool
    ensures { result ≡ values_fit fields.now values.now }
{
    if fields.len() != values.len() {
        return false;
    }
    for i in 0..fields.len() {
        if !has_kind(kind_of(&fields[i].kind), &values[i]) {
            return false;
        }
    }
    true
}

// Whether it is an object of a type of the contract.
fn is_typed(types: &[TypeDef], object: &Object) -> bool
    ensures { result ≡ is_typed types.now object.now }
{
    match type_named(types, object.type_name.as_slice()) {
        Some(typedef) => values_fit(typedef.fields.as_slice(), object.values.as_slice()),
        None => false,
    }
}

fn are_typed(types: &[TypeDef], objects: &[Object]) -> bool
    ensures { result ≡ list_all (is_typed types.now) objects.now }
{
    for object in objects {
        if !is_typed(types, object) {
            return false;
        }
    }
    true
}

fn are_typed_keyed(types: &[TypeDef], objects: &[(Digest, Object)]) -> bool
    ensures { result ≡ list_all (is_typed_keyed types.now) objects.now }
{
    for keyed in objects {
        if !is_typed(types, &keyed.1) {
            return false;
        }
    }
    true
}

fn outputs_typed(types: &[TypeDef], asked: &Asked) -> bool
    ensures { result ≡ outputs_typed types.now asked.now }
{
    match asked {
        Asked::Shown => true,
        Asked::Made(_) => true,
        Asked::Given(outputs, _, _) => are_typed(types, outputs.as_slice()),
    }
}

fn objects_typed(types: &[TypeDef], case: &Case) -> bool
    ensures { result ≡ objects_typed types.now case.now }
{
    are_typed_keyed(types, case.inputs.as_slice())
        && are_typed_keyed(types, case.references.as_slice())
        && outputs_typed(types, &case.asked)
}

/// Why a case is none of the contract.
pub fn cause_of(contract: &ContractTree, case: &Case) -> Option<Cause>
    ensures { result ≡ cause_of_case contract.now case.now }
{
    if method_number(contract.methods.as_slice(), case.method.as_slice()).is_none() {
        return Some(Cause::Method);
    }
    if objects_typed(contract.types.as_slice(), case) {
        return None;
    }
    Some(Cause::Object)
}

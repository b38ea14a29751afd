//! Types, slots and fields.
ghost use Rattle.std.specs.Prelude.{◌≡◌, ◌++◌, ◌∷◌, [], length};
ghost use Rattle.std.specs.List.{list_any};
ghost use Rattle.cs_types_kinds.specs.Lookups.{is_field};
ghost use Rattle.cs_base.specs.Lists.{is_empty};
ghost use Rattle.cs_types.specs.Steps.{StatementPasses, BindsNames};
ghost use Rattle.cs_types.specs.Declaring.{field_told, fields_told, type_told, types_told, slot_kind, slot_told, slots_told, name_told, names_told, use_of_created, use_of_returned, method_names};

use cs_lang::{Field, Method, Slot, TypeDef};
use cs_lang_token::{MOST_FIELDS, MOST_TYPES};
use cs_types_kinds::{Kind, Scope, TypeError, Use, declared_kind, type_number};
use std::alloc::Global;

fn has_field(fields: &[Field], name: &[u8]) -> bool
    ensures { result ≡ list_any (is_field name.now) fields.now }
{
    fields
        .iter()
        .any(|field| field.name.bytes.as_slice() == name)
}

/// Tests the fields of a type.
fn check_fields(fields: &[Field]) -> Result<(), TypeError>
    ensures { StatementPasses result fields.now (fields_told fields.now) }
{
    for i in 0..fields.len() {
        check_field(fields.split_at(i).0, &fields[i])?;
    }
    Ok(())
}

/// Tests a field behind others of its type.
fn check_field(before: &[Field], field: &Field) -> Result<(), TypeError>
    ensures { StatementPasses result (before.now ++ field.now ∷ []) (field_told before.now field.now) }
{
    let full = before.len() >= MOST_FIELDS;
    if full || has_field(before, field.name.bytes.as_slice()) {
        return Err(TypeError::Mistyped(field.name.place));
    }
    declared_kind(&field.kind, field.name.place)?;
    Ok(())
}

/// Tests the types of a contract.
pub fn check_types(types: &[TypeDef]) -> Result<(), TypeError>
    ensures { StatementPasses result types.now (types_told types.now) }
{
    for i in 0..types.len() {
        check_type(types.split_at(i).0, &types[i])?;
    }
    Ok(())
}

/// Tests a type behind others.
fn check_type(before: &[TypeDef], typedef: &TypeDef) -> Result<(), TypeError>
    ensures { StatementPasses result (before.now ++ typedef.now ∷ []) (type_told before.now typedef.now) }
{
    let full = before.len() >= MOST_TYPES;
    if full || type_number(before, typedef.name.bytes.as_slice()).is_some() {
        return Err(TypeError::Mistyped(typedef.name.place));
    }
    check_fields(typedef.fields.as_slice())
}

fn slot_kind(many: bool, number: usize) -> Kind
    ensures { result ≡ slot_kind many number }
{
    if many {
        Kind::Objects(number)
    } else {
        Kind::Object(number)
    }
}

/// Brings a slot into sight.
#[tactic(auto, using(crate::proofs::Staying::stays))]
fn add_slot(
    alloc: Global,
    scope: &mut Scope<'_>,
    slot: &Slot,
    usage: Use,
    last: bool,
) -> Result<(), TypeError>
    ensures { BindsNames result scope.old scope.new
        (slot_told scope.old.contract.types usage slot.now last scope.old.names) }
{
    if scope.is_declared(slot.name.bytes.as_slice()) || slot.many && !last {
        return Err(TypeError::Mistyped(slot.name.place));
    }
    match type_number(
        scope.contract().types.as_slice(),
        slot.object.bytes.as_slice(),
    ) {
        Some(number) => {
            let kind = slot_kind(slot.many, number);
            scope.add(alloc, slot.name.bytes.as_slice(), kind, usage)
        }
        None => Err(TypeError::Unbound(slot.object.place)),
    }
}

fn is_nil(slots: &[Slot]) -> bool
    ensures { result ≡ is_empty slots.now }
{
    match slots {
        [] => true,
        _ => false,
    }
}

/// Brings slots into sight.
fn add_slots(
    alloc: Global,
    scope: &mut Scope<'_>,
    slots: &[Slot],
    usage: Use,
) -> Result<(), TypeError>
    ensures { BindsNames result scope.old scope.new
        (slots_told scope.old.contract.types usage slots.now scope.old.names) }
{
    for i in 0..slots.len() {
        let last = is_nil(slots.split_at(i + 1).1);
        add_slot(alloc, scope, &slots[i], usage, last)?;
    }
    Ok(())
}

/// Brings a field into sight.
#[tactic(auto, using(crate::proofs::Staying::stays))]
fn add_field(
    alloc: Global,
    scope: &mut Scope<'_>,
    field: &Field,
    usage: Use,
) -> Result<(), TypeError>
    ensures { BindsNames result scope.old scope.new (name_told usage scope.old.names field.now) }
{
    if scope.is_declared(field.name.bytes.as_slice()) {
        return Err(TypeError::Mistyped(field.name.place));
    }
    let kind = declared_kind(&field.kind, field.name.place)?;
    scope.add(alloc, field.name.bytes.as_slice(), kind, usage)
}

/// Brings fields into sight.
fn add_fields(
    alloc: Global,
    scope: &mut Scope<'_>,
    fields: &[Field],
    usage: Use,
) -> Result<(), TypeError>
    ensures { BindsNames result scope.old scope.new (names_told usage fields.now scope.old.names) }
{
    for field in fields {
        add_field(alloc, scope, field, usage)?;
    }
    Ok(())
}

fn use_of_created(in_check: bool) -> Use
    ensures { result ≡ use_of_created in_check }
{
    if in_check { Use::Read } else { Use::Make }
}

fn use_of_returned(in_check: bool) -> Use
    ensures { result ≡ use_of_returned in_check }
{
    if in_check { Use::Read } else { Use::Set }
}

/// Brings the names of a method into sight of its procedure or its check, where none is in sight.
#[tactic(auto, using(crate::proofs::Staying::stays))]
pub fn add_names(
    alloc: Global,
    scope: &mut Scope<'_>,
    method: &Method,
    in_check: bool,
) -> Result<(), TypeError>
    requires { length scope.old.names ≡ 0 }
    ensures { BindsNames result scope.old scope.new
        (method_names scope.old.contract.types in_check method.now) }
{
    add_slots(alloc, scope, method.consumes.as_slice(), Use::Read)?;
    add_slots(alloc, scope, method.reads.as_slice(), Use::Read)?;
    add_fields(alloc, scope, method.takes.as_slice(), Use::Read)?;
    let created = use_of_created(in_check);
    add_slots(alloc, scope, method.creates.as_slice(), created)?;
    let returned = use_of_returned(in_check);
    add_fields(alloc, scope, method.returns.as_slice(), returned)
}

//! Which views fit a method, and the names that they fill.
ghost use Rattle.std.specs.Prelude.{◌≡◌, IfOk};
ghost use Rattle.std.specs.List.{list_all};
ghost use Rattle.cs_tx_value.specs.declared.value.Value.{out-Value};
ghost use Rattle.cs_types_kinds.specs.Kinds.{spelled_kind as declared};
ghost use Rattle.cs_eval_values.specs.Filling.{is_of_base, is_list_of, items_pass, has_kind, values_fit, fields_fit, object_fits, Fills, FillsSlot, many_filled, one_filled, slot_filled, slots_filled, field_filled, fields_filled, filled};

use crate::fields::type_named;
use crate::held::Held;
use crate::names::Names;
use crate::objects::Objects;
use crate::view::LentView;
use cs_base::Memory;
use cs_lang::{ContractTree, Field, Method, Slot, TypeDef};
use cs_lang_names::Numbers;
use cs_lang_token::MOST_ITEMS;
use cs_tx_value::{Digest, Object, Value};
use cs_types_kinds::{Base, Kind, kind_of, type_number};
use std::alloc::Global;

fn is_of_base(base: Base, value: &Value) -> bool
    ensures { result ≡ is_of_base base (out-Value value.now) }
{
    match (base, value) {
        (Base::Int, Value::Int(_)) => true,
        (Base::Bool, Value::Bool(_)) => true,
        (Base::Bytes, Value::Bytes(_)) => true,
        _ => false,
    }
}

#[cycle(kinds)]
fn each_is_of(base: Base, lists: u8, values: &[Value]) -> bool
    ensures { result ≡ list_all (is_list_of base lists) values.now }
{
    for value in values {
        if !is_of(base, lists, value) {
            return false;
        }
    }
    true
}

/// Whether it is lists so deep of the base.
#[cycle(kinds)]
fn is_of(base: Base, lists: u8, value: &Value) -> bool
    ensures { result ≡ is_list_of base lists value.now }
{
    if lists == 0 {
        return is_of_base(base, value);
    }
    match value {
        Value::List(items) => each_is_of(base, lists - 1, items.as_slice()),
        _ => false,
    }
}

/// Whether it is a value of the kind.
pub fn has_kind(kind: Option<Kind>, value: &Value) -> bool
    ensures { result ≡ has_kind kind value.now }
{
    match kind {
        Some(Kind::Value(base, lists)) => is_of(base, lists, value),
        _ => false,
    }
}

/// Whether there are as many values as fields, each of the declared kind.
fn values_fit(fields: &[Field], values: &[Value]) -> bool
    ensures { result ≡ values_fit fields.now values.now }
{
    if fields.len() != values.len() {
        return false;
    }
    for i in 0..fields.len() {
        if !has_kind(kind_of(&fields[i].kind), &values[i]) {
            return false;
        }
    }
    true
}

/// Whether it is an object of the contract and the type.
fn object_fits(contract: &Digest, types: &[TypeDef], name: &[u8], object: &Object) -> bool
    ensures { result ≡ object_fits contract.now types.now name.now object.now }
{
    if object.contract.as_slice() != contract.as_slice() || object.type_name.as_slice() != name {
        return false;
    }
    match type_named(types, name) {
        Some(typedef) => values_fit(typedef.fields.as_slice(), object.values.as_slice()),
        None => false,
    }
}

fn each_object_fits(
    contract: &Digest,
    types: &[TypeDef],
    name: &[u8],
    objects: &Objects<'_>,
) -> bool
    ensures { result ≡ list_all (object_fits contract.now types.now name.now) objects.now }
{
    for i in 0..objects.len() {
        if let Some(object) = objects.get(i) {
            if !object_fits(contract, types, name, object) {
                return false;
            }
        }
    }
    true
}

/// Fills a slot for any number of objects, and answers how many it takes.
fn fill_many<'a>(
    alloc: Global,
    contract: &Digest,
    types: &[TypeDef],
    slot: &'a Slot,
    number: usize,
    objects: &Objects<'a>,
    names: &mut Names<'a>,
) -> Result<Option<usize>, Memory>
    ensures { IfOk result (λ taken. FillsSlot taken objects.now names.new
        (many_filled contract.now types.now slot.now number (names.old, objects.now))) }
{
    let taken = objects.front(MOST_ITEMS);
    if !each_object_fits(contract, types, slot.object.bytes.as_slice(), &taken) {
        return Ok(None);
    }
    let kind = Kind::Objects(number);
    names.add(
        slot.name.bytes.as_slice(),
        slot.name.place,
        kind,
        Held::many(alloc, &taken)?,
    )?;
    Ok(Some(MOST_ITEMS))
}

/// Fills a slot for one object, and answers how many it takes.
fn fill_one<'a>(
    alloc: Global,
    contract: &Digest,
    types: &[TypeDef],
    slot: &'a Slot,
    number: usize,
    objects: &Objects<'a>,
    names: &mut Names<'a>,
) -> Result<Option<usize>, Memory>
    ensures { IfOk result (λ taken. FillsSlot taken objects.now names.new
        (one_filled contract.now types.now slot.now number names.old objects.now)) }
{
    match objects.get(0) {
        Some(object) => {
            if !object_fits(contract, types, slot.object.bytes.as_slice(), object) {
                return Ok(None);
            }
            let kind = Kind::Object(number);
            names.add(
                slot.name.bytes.as_slice(),
                slot.name.place,
                kind,
                Held::one(alloc, object)?,
            )?;
            Ok(Some(1))
        }
        None => Ok(None),
    }
}

/// Fills a slot, and answers how many objects it takes.
pub fn fill_slot<'a>(
    alloc: Global,
    contract: &Digest,
    types: &[TypeDef],
    slot: &'a Slot,
    objects: &Objects<'a>,
    names: &mut Names<'a>,
) -> Result<Option<usize>, Memory>
    ensures { IfOk result (λ taken. FillsSlot taken objects.now names.new
        (slot_filled contract.now types.now (names.old, objects.now) slot.now)) }
{
    match type_number(types, slot.object.bytes.as_slice()) {
        Some(number) => {
            if slot.many {
                return fill_many(alloc, contract, types, slot, number, objects, names);
            }
            fill_one(alloc, contract, types, slot, number, objects, names)
        }
        None => Ok(None),
    }
}

/// Fills slots with objects, of which none is left over.
fn fill_slots<'a>(
    alloc: Global,
    contract: &Digest,
    types: &[TypeDef],
    slots: &'a [Slot],
    objects: Objects<'a>,
    names: &mut Names<'a>,
) -> Result<bool, Memory>
    ensures { IfOk result (λ fits. Fills fits names.new
        (slots_filled contract.now types.now slots.now objects.entry names.old)) }
{
    let mut left = objects;
    for slot in slots {
        match fill_slot(alloc, contract, types, slot, &left, names)? {
            Some(taken) => left = left.behind(taken),
            None => return Ok(false),
        }
    }
    Ok(left.len() == 0)
}

/// Fills a field.
fn fill_field<'a>(
    alloc: Global,
    field: &'a Field,
    value: &'a Value,
    names: &mut Names<'a>,
) -> Result<bool, Memory>
    ensures { IfOk result (λ fits. Fills fits names.new
        (field_filled field.now value.now names.old)) }
{
    match kind_of(&field.kind) {
        Some(kind) => {
            if !has_kind(Some(kind), value) {
                return Ok(false);
            }
            names.add(
                field.name.bytes.as_slice(),
                field.name.place,
                kind,
                Held::lent(alloc, value)?,
            )?;
            Ok(true)
        }
        None => Ok(false),
    }
}

/// Fills fields with values, of which there are as many.
fn fill_fields<'a>(
    alloc: Global,
    fields: &'a [Field],
    values: &'a [Value],
    names: &mut Names<'a>,
) -> Result<bool, Memory>
    ensures { IfOk result (λ fits. Fills fits names.new
        (fields_filled fields.now values.now names.old)) }
{
    if values.len() != fields.len() {
        return Ok(false);
    }
    for i in 0..fields.len() {
        if !fill_field(alloc, &fields[i], &values[i], names)? {
            return Ok(false);
        }
    }
    Ok(true)
}

/// The names of the method, where the view fits it.
pub fn fill<'a>(
    alloc: Global,
    contract: &'a ContractTree,
    method: &'a Method,
    view: &LentView<'a>,
    numbers: &'a Numbers,
) -> Result<Option<Names<'a>>, Memory>
    ensures { IfOk result (λ names. names ≡ filled contract.now method.now view.now) }
{
    let id = view.contract();
    let types = contract.types.as_slice();
    let mut names = Names::numbered(alloc, numbers)?;
    let fits = fill_slots(
        alloc,
        id,
        types,
        method.consumes.as_slice(),
        view.inputs(),
        &mut names,
    )? && fill_slots(
        alloc,
        id,
        types,
        method.reads.as_slice(),
        view.reads(),
        &mut names,
    )? && fill_fields(alloc, method.takes.as_slice(), view.params(), &mut names)?
        && fill_slots(
            alloc,
            id,
            types,
            method.creates.as_slice(),
            view.outputs(),
            &mut names,
        )?
        && fill_fields(alloc, method.returns.as_slice(), view.returns(), &mut names)?;
    if fits {
        return Ok(Some(names));
    }
    Ok(None)
}

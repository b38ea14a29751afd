//! Reading kinds, fields and slots.
ghost use Rattle.std.specs.Prelude.{◌≡◌, length};
ghost use Rattle.cs_lang_token.specs.Answers.{ReaderGives};
ghost use Rattle.cs_lang.specs.Readers.{kind_level, field_level, fields_level, fields_onward, fields_turn, slot_level, slots_level, slots_onward, slots_turn};

use crate::tree::{Field, Slot, ValueKind};
use cs_base::Sequence;
use cs_lang_token::{Boxed, Cursor, Kind, Stop};
use std::alloc::Global;

/// A kind, where so many more levels may be opened.
#[tactic(auto, unfolding(crate::specs::Readers::kind_level), using(crate::proofs::Levels::inside_kind_is))]
pub fn value_kind(alloc: Global, cursor: &mut Cursor<'_>, left: u8) -> Result<ValueKind, Stop>
    ensures { ReaderGives result cursor.new (kind_level left cursor.old) }
{
    if cursor.at(Kind::IntKind) {
        cursor.sign(Kind::IntKind)?;
        return Ok(ValueKind::Int);
    }
    if cursor.at(Kind::BoolKind) {
        cursor.sign(Kind::BoolKind)?;
        return Ok(ValueKind::Bool);
    }
    if cursor.at(Kind::BytesKind) {
        cursor.sign(Kind::BytesKind)?;
        return Ok(ValueKind::Bytes);
    }
    cursor.open(Kind::OpenList, left)?;
    let items = value_kind(alloc, cursor, left - 1)?;
    cursor.sign(Kind::CloseList)?;
    Ok(ValueKind::List(Boxed::new(alloc, items)?))
}

/// A name and a kind.
#[tactic(auto, unfolding(crate::specs::Readers::field_level))]
pub fn field(alloc: Global, cursor: &mut Cursor<'_>, left: u8) -> Result<Field, Stop>
    ensures { ReaderGives result cursor.new (field_level left cursor.old) }
{
    let name = cursor.name(alloc)?;
    cursor.sign(Kind::Colon)?;
    let kind = value_kind(alloc, cursor, left)?;
    Ok(Field { name, kind })
}

/// Fields with commas between them.
#[tactic(auto, using(crate::proofs::Onward::fields_is))]
pub fn fields(alloc: Global, cursor: &mut Cursor<'_>, left: u8) -> Result<Sequence<Field>, Stop>
    ensures { ReaderGives result cursor.new (fields_level left cursor.old) }
{
    let first = field(alloc, cursor, left)?;
    let mut all = Sequence::new(alloc);
    all.push(first)?;
    other_fields(alloc, cursor, left, all)
}

/// Fields behind the first, each behind a comma.
fn other_fields(
    alloc: Global,
    cursor: &mut Cursor<'_>,
    left: u8,
    first: Sequence<Field>,
) -> Result<Sequence<Field>, Stop>
    ensures { ReaderGives result cursor.new (fields_onward left (length cursor.old) first cursor.old) }
{
    let mut all = first;
    for _ in 0..cursor.len() {
        if !cursor.at(Kind::Comma) {
            return Ok(all);
        }
        all = other_field(alloc, cursor, left, all)?;
    }
    if cursor.at(Kind::Comma) {
        return Err(Stop::Syntax);
    }
    Ok(all)
}

/// A comma and a field behind others.
#[tactic(auto, unfolding(crate::specs::Readers::fields_turn))]
fn other_field(
    alloc: Global,
    cursor: &mut Cursor<'_>,
    left: u8,
    others: Sequence<Field>,
) -> Result<Sequence<Field>, Stop>
    ensures { ReaderGives result cursor.new (fields_turn left others cursor.old) }
{
    let mut all = others;
    cursor.sign(Kind::Comma)?;
    let one = field(alloc, cursor, left)?;
    all.push(one)?;
    Ok(all)
}

/// A name and a type, with a star where it takes any number of objects.
#[tactic(auto, unfolding(crate::specs::Readers::slot_level))]
pub fn slot(alloc: Global, cursor: &mut Cursor<'_>) -> Result<Slot, Stop>
    ensures { ReaderGives result cursor.new (slot_level cursor.old) }
{
    let name = cursor.name(alloc)?;
    cursor.sign(Kind::Colon)?;
    let object = cursor.name(alloc)?;
    let many = cursor.at(Kind::Star);
    if many {
        cursor.sign(Kind::Star)?;
    }
    Ok(Slot { name, object, many })
}

/// Slots with commas between them.
#[tactic(auto, using(crate::proofs::Onward::slots_is))]
pub fn slots(alloc: Global, cursor: &mut Cursor<'_>) -> Result<Sequence<Slot>, Stop>
    ensures { ReaderGives result cursor.new (slots_level cursor.old) }
{
    let first = slot(alloc, cursor)?;
    let mut all = Sequence::new(alloc);
    all.push(first)?;
    other_slots(alloc, cursor, all)
}

/// Slots behind the first, each behind a comma.
fn other_slots(
    alloc: Global,
    cursor: &mut Cursor<'_>,
    first: Sequence<Slot>,
) -> Result<Sequence<Slot>, Stop>
    ensures { ReaderGives result cursor.new (slots_onward (length cursor.old) first cursor.old) }
{
    let mut all = first;
    for _ in 0..cursor.len() {
        if !cursor.at(Kind::Comma) {
            return Ok(all);
        }
        all = other_slot(alloc, cursor, all)?;
    }
    if cursor.at(Kind::Comma) {
        return Err(Stop::Syntax);
    }
    Ok(all)
}

/// A comma and a slot behind others.
#[tactic(auto, unfolding(crate::specs::Readers::slots_turn))]
fn other_slot(
    alloc: Global,
    cursor: &mut Cursor<'_>,
    others: Sequence<Slot>,
) -> Result<Sequence<Slot>, Stop>
    ensures { ReaderGives result cursor.new (slots_turn others cursor.old) }
{
    let mut all = others;
    cursor.sign(Kind::Comma)?;
    let one = slot(alloc, cursor)?;
    all.push(one)?;
    Ok(all)
}

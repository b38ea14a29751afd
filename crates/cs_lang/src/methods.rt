//! Reading types, methods and whole texts.
ghost use Rattle.std.specs.Prelude.{◌≡◌, length};
ghost use Rattle.cs_lang_token.specs.Answers.{ReaderGives};
ghost use Rattle.cs_lang.specs.Readers.{optional_fields, typedef_level, slots_section, fields_section, head_level, body_level, method_level, typedefs_level, typedefs_onward, typedefs_turn, methods_level, methods_onward, methods_turn, contract_level};

use crate::kinds::{fields, slots};
use crate::statements::block;
use crate::tree::{Block, ContractTree, Field, Method, Slot, TypeDef};
use cs_base::Sequence;
use cs_lang_token::{Cursor, Kind, MOST_LEVELS, Stop};
use std::alloc::Global;

/// What a method takes and gives.
#[derive(Drop)]
pub struct Head {
    pub consumes: Sequence<Slot>,
    pub reads: Sequence<Slot>,
    pub takes: Sequence<Field>,
    pub creates: Sequence<Slot>,
    pub returns: Sequence<Field>,
}

/// What a method does.
#[derive(Drop)]
pub struct Body {
    pub procedure: Block,
    pub check: Block,
    pub end: usize,
}

/// A type of objects.
#[tactic(auto, unfolding(crate::specs::Readers::typedef_level))]
fn typedef(alloc: Global, cursor: &mut Cursor<'_>) -> Result<TypeDef, Stop>
    ensures { ReaderGives result cursor.new (typedef_level cursor.old) }
{
    cursor.sign(Kind::Type)?;
    let name = cursor.name(alloc)?;
    cursor.sign(Kind::Open)?;
    let fields = optional_fields(alloc, cursor)?;
    cursor.sign(Kind::Close)?;
    cursor.sign(Kind::Semicolon)?;
    Ok(TypeDef { name, fields })
}

/// The fields of a type, of which there may be none.
#[tactic(auto, unfolding(crate::specs::Readers::optional_fields))]
fn optional_fields(alloc: Global, cursor: &mut Cursor<'_>) -> Result<Sequence<Field>, Stop>
    ensures { ReaderGives result cursor.new (optional_fields cursor.old) }
{
    if cursor.at(Kind::Name) {
        return fields(alloc, cursor, MOST_LEVELS - 1);
    }
    Ok(Sequence::new(alloc))
}

/// Slots behind the word, or none where it isn't there.
#[tactic(auto, unfolding(crate::specs::Readers::slots_section))]
fn slots_behind(alloc: Global, cursor: &mut Cursor<'_>, word: Kind) -> Result<Sequence<Slot>, Stop>
    ensures { ReaderGives result cursor.new (slots_section word cursor.old) }
{
    if !cursor.at(word) {
        return Ok(Sequence::new(alloc));
    }
    cursor.sign(word)?;
    slots(alloc, cursor)
}

/// Fields behind the word, or none where it isn't there.
#[tactic(auto, unfolding(crate::specs::Readers::fields_section))]
fn fields_behind(
    alloc: Global,
    cursor: &mut Cursor<'_>,
    word: Kind,
) -> Result<Sequence<Field>, Stop>
    ensures { ReaderGives result cursor.new (fields_section word cursor.old) }
{
    if !cursor.at(word) {
        return Ok(Sequence::new(alloc));
    }
    cursor.sign(word)?;
    fields(alloc, cursor, MOST_LEVELS)
}

/// What a method takes and gives.
#[tactic(auto, unfolding(crate::specs::Readers::head_level))]
fn read_head(alloc: Global, cursor: &mut Cursor<'_>) -> Result<Head, Stop>
    ensures { ReaderGives result cursor.new (head_level cursor.old) }
{
    let consumes = slots_behind(alloc, cursor, Kind::Consumes)?;
    let reads = slots_behind(alloc, cursor, Kind::Reads)?;
    let takes = fields_behind(alloc, cursor, Kind::Takes)?;
    let creates = slots_behind(alloc, cursor, Kind::Creates)?;
    let returns = fields_behind(alloc, cursor, Kind::Returns)?;
    Ok(Head {
        consumes,
        reads,
        takes,
        creates,
        returns,
    })
}

/// What a method does.
#[tactic(auto, unfolding(crate::specs::Readers::body_level))]
fn read_body(alloc: Global, cursor: &mut Cursor<'_>) -> Result<Body, Stop>
    ensures { ReaderGives result cursor.new (body_level cursor.old) }
{
    cursor.sign(Kind::OpenBlock)?;
    cursor.sign(Kind::Procedure)?;
    let procedure = block(alloc, cursor, MOST_LEVELS - 1)?;
    cursor.sign(Kind::Check)?;
    let check = block(alloc, cursor, MOST_LEVELS - 1)?;
    let end = cursor.sign(Kind::CloseBlock)?;
    Ok(Body {
        procedure,
        check,
        end,
    })
}

/// A method.
#[tactic(auto, unfolding(crate::specs::Readers::method_level))]
fn method(alloc: Global, cursor: &mut Cursor<'_>) -> Result<Method, Stop>
    ensures { ReaderGives result cursor.new (method_level cursor.old) }
{
    cursor.sign(Kind::Method)?;
    let name = cursor.name(alloc)?;
    let head = read_head(alloc, cursor)?;
    let body = read_body(alloc, cursor)?;
    Ok(Method {
        name,
        consumes: head.consumes,
        reads: head.reads,
        takes: head.takes,
        creates: head.creates,
        returns: head.returns,
        procedure: body.procedure,
        check: body.check,
        end: body.end,
    })
}

/// The types at the front of a text.
#[tactic(auto, using(crate::proofs::Onward::typedefs_is))]
fn typedefs(alloc: Global, cursor: &mut Cursor<'_>) -> Result<Sequence<TypeDef>, Stop>
    ensures { ReaderGives result cursor.new (typedefs_level cursor.old) }
{
    other_typedefs(alloc, cursor, Sequence::new(alloc))
}

/// Types behind others.
fn other_typedefs(
    alloc: Global,
    cursor: &mut Cursor<'_>,
    first: Sequence<TypeDef>,
) -> Result<Sequence<TypeDef>, Stop>
    ensures { ReaderGives result cursor.new (typedefs_onward (length cursor.old) first cursor.old) }
{
    let mut all = first;
    for _ in 0..cursor.len() {
        if !cursor.at(Kind::Type) {
            return Ok(all);
        }
        all = other_typedef(alloc, cursor, all)?;
    }
    if cursor.at(Kind::Type) {
        return Err(Stop::Syntax);
    }
    Ok(all)
}

/// A type behind others.
#[tactic(auto, unfolding(crate::specs::Readers::typedefs_turn))]
fn other_typedef(
    alloc: Global,
    cursor: &mut Cursor<'_>,
    others: Sequence<TypeDef>,
) -> Result<Sequence<TypeDef>, Stop>
    ensures { ReaderGives result cursor.new (typedefs_turn others cursor.old) }
{
    let mut all = others;
    let one = typedef(alloc, cursor)?;
    all.push(one)?;
    Ok(all)
}

/// The methods, of which there is one at least.
#[tactic(auto, using(crate::proofs::Onward::methods_is))]
fn methods(alloc: Global, cursor: &mut Cursor<'_>) -> Result<Sequence<Method>, Stop>
    ensures { ReaderGives result cursor.new (methods_level cursor.old) }
{
    let first = method(alloc, cursor)?;
    let mut all = Sequence::new(alloc);
    all.push(first)?;
    other_methods(alloc, cursor, all)
}

/// Methods behind others.
fn other_methods(
    alloc: Global,
    cursor: &mut Cursor<'_>,
    first: Sequence<Method>,
) -> Result<Sequence<Method>, Stop>
    ensures { ReaderGives result cursor.new (methods_onward (length cursor.old) first cursor.old) }
{
    let mut all = first;
    for _ in 0..cursor.len() {
        if !cursor.at(Kind::Method) {
            return Ok(all);
        }
        all = other_method(alloc, cursor, all)?;
    }
    if cursor.at(Kind::Method) {
        return Err(Stop::Syntax);
    }
    Ok(all)
}

/// A method behind others.
#[tactic(auto, unfolding(crate::specs::Readers::methods_turn))]
fn other_method(
    alloc: Global,
    cursor: &mut Cursor<'_>,
    others: Sequence<Method>,
) -> Result<Sequence<Method>, Stop>
    ensures { ReaderGives result cursor.new (methods_turn others cursor.old) }
{
    let mut all = others;
    let one = method(alloc, cursor)?;
    all.push(one)?;
    Ok(all)
}

/// A whole text.
#[tactic(auto, unfolding(crate::specs::Readers::contract_level))]
pub fn contract(alloc: Global, cursor: &mut Cursor<'_>) -> Result<ContractTree, Stop>
    ensures { ReaderGives result cursor.new (contract_level cursor.old) }
{
    let types = typedefs(alloc, cursor)?;
    let methods = methods(alloc, cursor)?;
    Ok(ContractTree { types, methods })
}

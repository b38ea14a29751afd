//! Printing whole contracts.
ghost use Rattle.std.specs.Prelude.{OnErr};
ghost use Rattle.cs_lang.specs.Texts.{IsShortText};
ghost use Rattle.cs_lang_print.specs.Again.{ContractIsReadAgain};
ghost use Rattle.cs_lang_print.specs.Words.{each_text, behind_comma, with_commas, Appends, GoesOnBehind};
ghost use Rattle.cs_lang_print.specs.Texts.{field_text, star_text, slot_text, section_text, type_text, head_text, body_text, method_text, contract_text};

use crate::kinds::put_kind;
use crate::statements::{put_block, put_name};
use crate::words::{put_ending, put_word};
use cs_lang::{Contract, Field, Method, Slot, TypeDef};
use std::alloc::{AllocError, Global};

/// A field.
fn put_field(field: &Field, out: &mut Vec<u8>) -> Result<(), AllocError>
    ensures text { Appends result out.old out.new (field_text field.now) }
    ensures front { OnErr result (GoesOnBehind out.new.items out.old.items) }
{
    put_name(&field.name, out)?;
    put_word(b":", out)?;
    put_kind(&field.kind, out)
}

/// A field behind a comma.
fn put_other_field(field: &Field, out: &mut Vec<u8>) -> Result<(), AllocError>
    ensures text { Appends result out.old out.new (behind_comma field_text field.now) }
    ensures front { OnErr result (GoesOnBehind out.new.items out.old.items) }
{
    put_word(b",", out)?;
    put_field(field, out)
}

/// Fields, each behind a comma.
fn put_other_fields(fields: &[Field], out: &mut Vec<u8>) -> Result<(), AllocError>
    ensures text { Appends result out.old out.new (each_text (behind_comma field_text) fields.now) }
    ensures front { OnErr result (GoesOnBehind out.new.items out.old.items) }
{
    for field in fields {
        put_other_field(field, out)?;
    }
    Ok(())
}

/// Fields with commas between them.
fn put_fields(fields: &[Field], out: &mut Vec<u8>) -> Result<(), AllocError>
    ensures text { Appends result out.old out.new (with_commas field_text fields.now) }
    ensures front { OnErr result (GoesOnBehind out.new.items out.old.items) }
{
    match fields {
        [] => Ok(()),
        [first, others @ ..] => {
            put_field(first, out)?;
            put_other_fields(others, out)
        }
    }
}

/// The sign of any number of objects.
fn put_star(many: bool, out: &mut Vec<u8>) -> Result<(), AllocError>
    ensures text { Appends result out.old out.new (star_text many) }
    ensures front { OnErr result (GoesOnBehind out.new.items out.old.items) }
{
    if many {
        return put_word(b"*", out);
    }
    Ok(())
}

/// A slot.
fn put_slot(slot: &Slot, out: &mut Vec<u8>) -> Result<(), AllocError>
    ensures text { Appends result out.old out.new (slot_text slot.now) }
    ensures front { OnErr result (GoesOnBehind out.new.items out.old.items) }
{
    put_name(&slot.name, out)?;
    put_word(b":", out)?;
    put_name(&slot.object, out)?;
    put_star(slot.many, out)
}

/// A slot behind a comma.
fn put_other_slot(slot: &Slot, out: &mut Vec<u8>) -> Result<(), AllocError>
    ensures text { Appends result out.old out.new (behind_comma slot_text slot.now) }
    ensures front { OnErr result (GoesOnBehind out.new.items out.old.items) }
{
    put_word(b",", out)?;
    put_slot(slot, out)
}

/// Slots, each behind a comma.
fn put_other_slots(slots: &[Slot], out: &mut Vec<u8>) -> Result<(), AllocError>
    ensures text { Appends result out.old out.new (each_text (behind_comma slot_text) slots.now) }
    ensures front { OnErr result (GoesOnBehind out.new.items out.old.items) }
{
    for slot in slots {
        put_other_slot(slot, out)?;
    }
    Ok(())
}

/// Slots behind a word, where there are some.
fn put_slots(first: &[u8], slots: &[Slot], out: &mut Vec<u8>) -> Result<(), AllocError>
    ensures text { Appends result out.old out.new (section_text first.now slot_text slots.now) }
    ensures front { OnErr result (GoesOnBehind out.new.items out.old.items) }
{
    match slots {
        [] => Ok(()),
        [slot, others @ ..] => {
            put_word(first, out)?;
            put_slot(slot, out)?;
            put_other_slots(others, out)
        }
    }
}

/// Fields behind a word, where there are some.
fn put_fields_behind(first: &[u8], fields: &[Field], out: &mut Vec<u8>) -> Result<(), AllocError>
    ensures text { Appends result out.old out.new (section_text first.now field_text fields.now) }
    ensures front { OnErr result (GoesOnBehind out.new.items out.old.items) }
{
    match fields {
        [] => Ok(()),
        [field, others @ ..] => {
            put_word(first, out)?;
            put_field(field, out)?;
            put_other_fields(others, out)
        }
    }
}

/// A type.
fn put_type(typedef: &TypeDef, out: &mut Vec<u8>) -> Result<(), AllocError>
    ensures text { Appends result out.old out.new (type_text typedef.now) }
    ensures front { OnErr result (GoesOnBehind out.new.items out.old.items) }
{
    put_word(b"type", out)?;
    put_name(&typedef.name, out)?;
    put_word(b"(", out)?;
    put_fields(typedef.fields.as_slice(), out)?;
    put_word(b")", out)?;
    put_ending(b";", out)
}

/// What a method takes and gives.
fn put_head(method: &Method, out: &mut Vec<u8>) -> Result<(), AllocError>
    ensures text { Appends result out.old out.new (head_text method.now) }
    ensures front { OnErr result (GoesOnBehind out.new.items out.old.items) }
{
    put_slots(b"consumes", method.consumes.as_slice(), out)?;
    put_slots(b"reads", method.reads.as_slice(), out)?;
    put_fields_behind(b"takes", method.takes.as_slice(), out)?;
    put_slots(b"creates", method.creates.as_slice(), out)?;
    put_fields_behind(b"returns", method.returns.as_slice(), out)
}

/// What a method does.
fn put_body(alloc: Global, method: &Method, out: &mut Vec<u8>) -> Result<(), AllocError>
    ensures text { Appends result out.old out.new (body_text method.now) }
    ensures front { OnErr result (GoesOnBehind out.new.items out.old.items) }
{
    put_ending(b"{", out)?;
    put_word(b"procedure", out)?;
    put_block(alloc, &method.procedure, out)?;
    put_word(b"check", out)?;
    put_block(alloc, &method.check, out)?;
    put_ending(b"}", out)
}

/// A method.
fn put_method(alloc: Global, method: &Method, out: &mut Vec<u8>) -> Result<(), AllocError>
    ensures text { Appends result out.old out.new (method_text method.now) }
    ensures front { OnErr result (GoesOnBehind out.new.items out.old.items) }
{
    put_word(b"method", out)?;
    put_name(&method.name, out)?;
    put_head(method, out)?;
    put_body(alloc, method, out)
}

/// Types, each on its line.
fn put_types(types: &[TypeDef], out: &mut Vec<u8>) -> Result<(), AllocError>
    ensures text { Appends result out.old out.new (each_text type_text types.now) }
    ensures front { OnErr result (GoesOnBehind out.new.items out.old.items) }
{
    for typedef in types {
        put_type(typedef, out)?;
    }
    Ok(())
}

/// Methods.
fn put_methods(alloc: Global, methods: &[Method], out: &mut Vec<u8>) -> Result<(), AllocError>
    ensures text { Appends result out.old out.new (each_text method_text methods.now) }
    ensures front { OnErr result (GoesOnBehind out.new.items out.old.items) }
{
    for method in methods {
        put_method(alloc, method, out)?;
    }
    Ok(())
}

/// Appends the text of a contract: each token with a space or a break behind it, one statement on
/// a line, and parentheses where the grammar needs them. On want of memory a front of it is
/// appended.
#[tactic(auto, unfolding(crate::specs::Texts::contract_text), using(crate::proofs::RoundTrip::read_again))]
pub fn print(alloc: Global, contract: &Contract, out: &mut Vec<u8>) -> Result<(), AllocError>
    // What is appended is the text of the definition.
    ensures text { Appends result out.old out.new (contract_text contract.now) }
    // On want of memory what was there still stands at the front.
    ensures front { OnErr result (GoesOnBehind out.new.items out.old.items) }
    // If it is no longer than a text may be, it is the same contract but for places.
    ensures again { IsShortText (contract_text contract.now) → ContractIsReadAgain contract.now }
{
    let tree = contract.tree();
    put_types(tree.types.as_slice(), out)?;
    put_methods(alloc, tree.methods.as_slice(), out)
}

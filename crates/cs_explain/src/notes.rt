//! What the writer of an accepted contract may not mean.
ghost use Rattle.std.specs.Prelude.{◌≡◌, ◌++◌, OnOk};
ghost use Rattle.cs_explain.specs.Notes.{end_of, note_text, unmade_note, unmade_notes, idle_note, unlooked_note, unlooked_notes, method_notes, notes_in, notes_of};

use crate::found::tokens_in;
use crate::mentions::{is_looked_at, is_made};
use cs_base::Memory;
use cs_lang::{Block, ContractTree, Field, Method, Slot};
use cs_lang_token::Token;
use std::alloc::Global;

fn end_of(block: &Block) -> usize
    ensures { result ≡ end_of block.now }
{
    block.end
}

fn put_note(
    method: &[u8],
    front: &[u8],
    name: &[u8],
    back: &[u8],
    out: &mut Vec<u8>,
) -> Result<(), Memory>
    ensures { OnOk result (out.new.items
        ≡ out.old.items ++ note_text method.now front.now name.now back.now) }
{
    out.extend_from_slice(b"note ")?;
    out.extend_from_slice(method)?;
    out.extend_from_slice(b": ")?;
    out.extend_from_slice(front)?;
    out.extend_from_slice(name)?;
    out.extend_from_slice(back)?;
    out.extend_from_slice(b"\n")?;
    Ok(())
}

// A note on a slot that no statement of the procedure makes.
#[tactic(auto, unfolding(crate::specs::Notes::unmade_note))]
fn put_unmade(
    tokens: &[Token],
    method: &Method,
    slot: &Slot,
    out: &mut Vec<u8>,
) -> Result<(), Memory>
    ensures { OnOk result (out.new.items
        ≡ out.old.items ++ unmade_note tokens.now method.now slot.now) }
{
    let (low, high) = (method.name.place, end_of(&method.procedure));
    let name = slot.name.bytes.as_slice();
    if is_made(low, high, name, tokens) {
        return Ok(());
    }
    let method = method.name.bytes.as_slice();
    put_note(method, b"", name, b" is never made", out)
}

fn put_all_unmade(
    tokens: &[Token],
    method: &Method,
    slots: &[Slot],
    out: &mut Vec<u8>,
) -> Result<(), Memory>
    ensures { OnOk result (out.new.items
        ≡ out.old.items ++ unmade_notes tokens.now method.now slots.now) }
{
    for slot in slots {
        put_unmade(tokens, method, slot, out)?;
    }
    Ok(())
}

// A note on a method without objects to consume: a transaction consumes one at least.
fn put_idle(method: &Method, out: &mut Vec<u8>) -> Result<(), Memory>
    ensures { OnOk result (out.new.items ≡ out.old.items ++ idle_note method.now) }
{
    match method.consumes.as_slice() {
        [] => {
            let name = method.name.bytes.as_slice();
            let note = b"consumes nothing, so no transaction is of it alone";
            put_note(name, note, b"", b"", out)
        }
        _ => Ok(()),
    }
}

// A note on a parameter that no expression of the check names.
#[tactic(auto, unfolding(crate::specs::Notes::unlooked_note))]
fn put_unlooked(
    tokens: &[Token],
    method: &Method,
    field: &Field,
    out: &mut Vec<u8>,
) -> Result<(), Memory>
    ensures { OnOk result (out.new.items
        ≡ out.old.items ++ unlooked_note tokens.now method.now field.now) }
{
    let (low, high) = (end_of(&method.procedure), end_of(&method.check));
    let name = field.name.bytes.as_slice();
    if is_looked_at(low, high, name, tokens) {
        return Ok(());
    }
    let method = method.name.bytes.as_slice();
    put_note(
        method,
        b"parameter ",
        name,
        b" is never looked at by the check",
        out,
    )
}

fn put_all_unlooked(
    tokens: &[Token],
    method: &Method,
    fields: &[Field],
    out: &mut Vec<u8>,
) -> Result<(), Memory>
    ensures { OnOk result (out.new.items
        ≡ out.old.items ++ unlooked_notes tokens.now method.now fields.now) }
{
    for field in fields {
        put_unlooked(tokens, method, field, out)?;
    }
    Ok(())
}

#[tactic(auto, unfolding(crate::specs::Notes::method_notes))]
fn put_method(tokens: &[Token], method: &Method, out: &mut Vec<u8>) -> Result<(), Memory>
    ensures { OnOk result (out.new.items ≡ out.old.items ++ method_notes tokens.now method.now) }
{
    put_all_unmade(tokens, method, method.creates.as_slice(), out)?;
    put_idle(method, out)?;
    put_all_unlooked(tokens, method, method.takes.as_slice(), out)
}

fn put_methods(tokens: &[Token], methods: &[Method], out: &mut Vec<u8>) -> Result<(), Memory>
    ensures { OnOk result (out.new.items ≡ out.old.items ++ notes_in tokens.now methods.now) }
{
    for method in methods {
        put_method(tokens, method, out)?;
    }
    Ok(())
}

/// Appends the notes on the contract that a text is, a line each.
#[tactic(auto, unfolding(crate::specs::Notes::notes_of))]
pub fn put_notes(
    alloc: Global,
    text: &[u8],
    contract: &ContractTree,
    out: &mut Vec<u8>,
) -> Result<(), Memory>
    ensures { OnOk result (out.new.items ≡ out.old.items ++ notes_of text.now contract.now) }
{
    let tokens = tokens_in(alloc, text)?;
    put_methods(tokens.as_slice(), contract.methods.as_slice(), out)
}

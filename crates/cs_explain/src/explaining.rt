//! What is told of a fault behind its line.
ghost use Rattle.std.specs.Prelude.{◌≡◌, ◌++◌, [], ◌<◌, length, slice_get, slice_index, IfOk, OnOk, string_bytes};
ghost use Rattle.cs_explain.specs.Found.{index_of};
ghost use Rattle.cs_types.specs.Positions.{position_at as position_of};
ghost use Rattle.cs_explain.specs.Reasons.{reason_of};
ghost use Rattle.cs_explain.specs.Explaining.{wanted_text, wanted_if_any, token_place, declared_text, fixed_text, kinds_told, kind_told, compared_at, reason_told, mistyped_text, byte_told, lex_text, syntax_text, told_in, explanation, without_last, explained_text};

use crate::comparing::{Compared, compared_in, compared_text};
use crate::found::{index_of, put, put_byte, put_found, put_token, tokens_in};
use crate::reasons::{Reason, reason_of};
use crate::standing::{literals_text, standing_at, tried_tokens};
use crate::wanted::{kinds_text, wanted_at};
use cs_base::Memory;
use cs_lang_token::{Kind, Token};
use cs_types::{Fault, Position, position_at};
use std::alloc::{AllocError, Global};

// Tells which kinds of tokens are wanted.
fn put_wanted(alloc: Global, kinds: &[Kind], out: &mut Vec<u8>) -> Result<(), Memory>
    ensures { OnOk result (out.new.items ≡ out.old.items ++ wanted_text kinds.now) }
{
    let text = kinds_text(alloc, kinds)?;
    out.extend_from_slice(b", wanted ")?;
    out.extend_from_slice(text.as_bytes())?;
    Ok(())
}

// The same behind a byte that begins no token. Where none is wanted, a token before it is at fault
// too, so nothing is told.
fn put_wanted_if_any(alloc: Global, kinds: &[Kind], out: &mut Vec<u8>) -> Result<(), Memory>
    ensures { OnOk result (out.new.items ≡ out.old.items ++ wanted_if_any kinds.now) }
{
    match kinds {
        [] => Ok(()),
        _ => put_wanted(alloc, kinds, out),
    }
}

fn token_place(tokens: &[Token], index: usize) -> usize
    ensures { result ≡ token_place (slice_get tokens.now index) }
{
    match tokens.get(index) {
        Some(token) => token.place,
        None => 0,
    }
}

fn declared_text(alloc: Global, position: Position) -> Result<String, AllocError>
    ensures { IfOk result (λ text. string_bytes text ≡ declared_text position) }
{
    format!(in alloc; " is declared at {} {}", position.line, position.column)
}

// What is told behind a token without looking further.
fn fixed_text(reason: Reason) -> &'static str
    ensures { result.now ≡ fixed_text reason }
{
    match reason {
        Reason::Star => " has a star, and isn't the last of its part",
        Reason::Limit => " is one too many, or its kind nests too deep",
        Reason::InProcedures => " stands in procedures alone",
        Reason::InChecks => " stands in checks alone",
        Reason::Fields => " gives another number of fields than the type has",
        Reason::Values => " has another number of values or names, or meets a star",
        Reason::Turns => " has more than 1024 turns",
        Reason::Unset => " can't be set",
        Reason::Uncreated => " isn't created",
        Reason::OtherType => " isn't the type of this slot",
        Reason::Starred => " has a star, and stands for objects by their places, as in [0]",
        Reason::Unstarred => " has no star, and so no places",
        Reason::Object => " is an object, of which only the fields are values",
        Reason::Declared(_) => "",
        Reason::Kind => "",
    }
}

// Tells where the token of this number stands, which declares a name.
fn put_declared(
    alloc: Global,
    text: &[u8],
    tokens: &[Token],
    other: usize,
    out: &mut Vec<u8>,
) -> Result<(), Memory>
    ensures { OnOk result (out.new.items ≡ out.old.items
        ++ declared_text (position_of text.now (token_place (slice_get tokens.now other)))) }
{
    let position = position_at(text, token_place(tokens, other));
    let told = declared_text(alloc, position)?;
    put(told.as_bytes(), out)
}

// Tells the token of this number, and the kinds that may begin with it.
fn put_kinds(
    alloc: Global,
    text: &[u8],
    tokens: &[Token],
    index: usize,
    out: &mut Vec<u8>,
) -> Result<(), Memory>
    requires { index < length tokens.now }
    ensures { OnOk result (out.new.items ≡ out.old.items ++ kinds_told text.now tokens.now index) }
{
    let place = token_place(tokens, index);
    let standing = standing_at(alloc, text, place, tokens, index)?;
    let told = literals_text(alloc, standing.as_slice())?;
    out.extend_from_slice(b"found ")?;
    put_token(alloc, tokens, index, out)?;
    put(told.as_bytes(), out)
}

// The list that begins with the token of this number, if it is one that is compared.
fn compared_at(
    alloc: Global,
    text: &[u8],
    tokens: &[Token],
    index: usize,
) -> Result<Option<Compared>, Memory>
    requires { index < length tokens.now }
    ensures { IfOk result (λ compared. compared ≡ compared_at text.now tokens.now index) }
{
    let (_, behind) = tokens.split_at(index + 1);
    compared_in(
        alloc,
        text,
        token_place(tokens, index),
        tried_tokens(behind),
    )
}

// Tells of a list that is compared, or else the kinds that may begin with the token of this number.
fn put_kind(
    alloc: Global,
    text: &[u8],
    tokens: &[Token],
    index: usize,
    out: &mut Vec<u8>,
) -> Result<(), Memory>
    requires { index < length tokens.now }
    ensures { OnOk result (out.new.items ≡ out.old.items
        ++ kind_told (compared_at text.now tokens.now index) text.now tokens.now index) }
{
    match compared_at(alloc, text, tokens, index)? {
        Some(compared) => {
            let told = compared_text(alloc, compared)?;
            put(told.as_bytes(), out)
        }
        None => put_kinds(alloc, text, tokens, index, out),
    }
}

// Tells a reason, of the token of this number.
fn put_reason(
    alloc: Global,
    reason: Reason,
    text: &[u8],
    tokens: &[Token],
    index: usize,
    out: &mut Vec<u8>,
) -> Result<(), Memory>
    requires { index < length tokens.now }
    ensures { OnOk result (out.new.items
        ≡ out.old.items ++ reason_told reason text.now tokens.now index) }
{
    match reason {
        Reason::Kind => put_kind(alloc, text, tokens, index, out),
        Reason::Declared(other) => {
            put_token(alloc, tokens, index, out)?;
            put_declared(alloc, text, tokens, other, out)
        }
        other => {
            put_token(alloc, tokens, index, out)?;
            put(fixed_text(other).as_bytes(), out)
        }
    }
}

fn put_mistyped(
    alloc: Global,
    text: &[u8],
    tokens: &[Token],
    place: usize,
    out: &mut Vec<u8>,
) -> Result<(), Memory>
    ensures { OnOk result (out.new.items
        ≡ out.old.items ++ mistyped_text text.now tokens.now (index_of place tokens.now)) }
{
    match index_of(place, tokens) {
        Some(index) => put_reason(alloc, reason_of(tokens, index), text, tokens, index, out),
        None => put(b"the end", out),
    }
}

fn put_byte_told(alloc: Global, text: &[u8], place: usize, out: &mut Vec<u8>) -> Result<(), Memory>
    ensures { OnOk result (out.new.items ≡ out.old.items ++ byte_told text.now place) }
{
    let wanted = wanted_at(alloc, text, place)?;
    out.extend_from_slice(b"found ")?;
    put_byte(alloc, byte_at(text, place), out)?;
    put_wanted_if_any(alloc, wanted.as_slice(), out)
}

// Tells of a byte that begins no token: a quote that is none of a byte text has a sentence of its
// own.
fn put_lex(alloc: Global, text: &[u8], place: usize, out: &mut Vec<u8>) -> Result<(), Memory>
    ensures { OnOk result (out.new.items ≡ out.old.items ++ lex_text text.now place) }
{
    if byte_at(text, place) == b'"' {
        let told = b"a byte text is x\"00ff\", with two small hex digits for each byte";
        return put(told, out);
    }
    put_byte_told(alloc, text, place, out)
}

// The byte at the place, or 0 behind the last.
fn byte_at(text: &[u8], place: usize) -> u8
    ensures { result ≡ slice_index text.now place }
{
    match text.get(place) {
        Some(byte) => *byte,
        None => 0,
    }
}

fn put_syntax(
    alloc: Global,
    text: &[u8],
    tokens: &[Token],
    place: usize,
    out: &mut Vec<u8>,
) -> Result<(), Memory>
    ensures { OnOk result (out.new.items ≡ out.old.items ++ syntax_text text.now tokens.now place) }
{
    let wanted = wanted_at(alloc, text, place)?;
    out.extend_from_slice(b"found ")?;
    put_found(alloc, tokens, index_of(place, tokens), out)?;
    put_wanted(alloc, wanted.as_slice(), out)
}

// Tells of a fault in these tokens.
fn put_told(
    alloc: Global,
    text: &[u8],
    tokens: &[Token],
    fault: Fault,
    out: &mut Vec<u8>,
) -> Result<(), Memory>
    ensures { OnOk result (out.new.items ≡ out.old.items ++ told_in text.now tokens.now fault) }
{
    match fault {
        Fault::TooLong => put(b"a text has at most 65536 bytes", out),
        Fault::Lex(place) => put_lex(alloc, text, place, out),
        Fault::Syntax(place) => put_syntax(alloc, text, tokens, place, out),
        Fault::Mistyped(place) => put_mistyped(alloc, text, tokens, place, out),
        Fault::Unbound(place) => put_found(alloc, tokens, index_of(place, tokens), out),
        Fault::Cost(_) => put(b"a body costs at most 1000000", out),
    }
}

// Tells of a fault of a text.
fn put_explanation(
    alloc: Global,
    text: &[u8],
    fault: Fault,
    out: &mut Vec<u8>,
) -> Result<(), Memory>
    ensures { OnOk result (out.new.items ≡ out.old.items ++ explanation text.now fault) }
{
    let tokens = tokens_in(alloc, text)?;
    put_told(alloc, text, tokens.as_slice(), fault, out)
}

fn without_last(line: &[u8]) -> &[u8]
    ensures { result.now ≡ without_last line.now }
{
    line.split_at(line.len().saturating_sub(1)).0
}

/// The line that tells of a fault of this text, with what explains it behind a colon.
#[tactic(auto, unfolding(crate::specs::Explaining::explained_text))]
pub fn explained_line(alloc: Global, text: &[u8], fault: Fault) -> Result<Vec<u8>, Memory>
    ensures { IfOk result (λ line. line.items ≡ explained_text text.now fault) }
{
    let line = fault.line(alloc, text)?;
    let mut explained = Vec::from_slice(alloc, without_last(line.as_bytes()))?;
    explained.extend_from_slice(b": ")?;
    put_explanation(alloc, text, fault, &mut explained)?;
    explained.push(b'\n')?;
    Ok(explained)
}

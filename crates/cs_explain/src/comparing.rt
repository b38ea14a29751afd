//! Lists before `==` or `!=`, which compare no lists.
ghost use Rattle.std.specs.Prelude.{◌≡◌, take, drop, IfOk, string_bytes};
ghost use Rattle.std.specs.Option.{option_copied};
ghost use Rattle.cs_explain.specs.Comparing.{comparison, list_text, with_list, is_listed, listed_among, list_before, compared_in, compared_text};

use crate::standing::{Literal, can_stand, literal_label, literal_text, passes};
use crate::words::label;
use cs_base::Memory;
use cs_lang_token::{Kind, Token};
use std::alloc::{AllocError, Global};

/// A literal of each kind of lists that is told.
pub const LISTS: [Literal; 3] = [Literal::Ints, Literal::Bools, Literal::ByteLists];

/// A list, by a literal of its kind, before an operator that compares no lists.
#[derive(Clone, Copy, Debug, PartialEq, Eq)]
pub struct Compared {
    pub operator: Kind,
    pub list: Literal,
}

// The first of the tokens that is `==` or `!=`.
fn comparison(tokens: &[Token]) -> Option<&Token>
    ensures { option_copied result ≡ comparison tokens.now }
{
    for token in tokens {
        if token.is_any(&[Kind::Equal, Kind::NotEqual]) {
            return Some(token);
        }
    }
    None
}

// What stands before a place.
fn before(text: &[u8], place: usize) -> &[u8]
    ensures { result.now ≡ take place text.now }
{
    text.split_at(place.min(text.len())).0
}

// What stands behind a place.
fn behind(text: &[u8], place: usize) -> &[u8]
    ensures { result.now ≡ drop place text.now }
{
    text.split_at(place.min(text.len())).1
}

// A list of a value and of a literal.
fn list_text(alloc: Global, value: &[u8], literal: Literal) -> Result<Vec<u8>, Memory>
    ensures { IfOk result (λ list. list.items ≡ list_text value.now literal) }
{
    let mut list = Vec::from_slice(alloc, b"[")?;
    list.extend_from_slice(value)?;
    list.extend_from_slice(b", ")?;
    list.extend_from_slice(literal_text(literal).as_bytes())?;
    list.extend_from_slice(b"] ")?;
    Ok(list)
}

// The text with a list of what stands between two places, and of a literal, in its place.
fn with_list(
    alloc: Global,
    text: &[u8],
    place: usize,
    end: usize,
    literal: Literal,
) -> Result<Vec<u8>, Memory>
    ensures { IfOk result (λ made. made.items ≡ with_list text.now place end literal) }
{
    let list = list_text(alloc, behind(before(text, end), place), literal)?;
    let mut made = Vec::from_slice(alloc, before(text, place))?;
    made.extend_from_slice(&list)?;
    made.extend_from_slice(behind(text, end))?;
    Ok(made)
}

// Whether what stands between two places is of the literal's kind: then no rule is broken but by the
// list of both.
fn is_listed(
    alloc: Global,
    text: &[u8],
    place: usize,
    end: usize,
    literal: Literal,
) -> Result<bool, Memory>
    ensures { IfOk result (λ listed. listed ≡ is_listed text.now place end literal) }
{
    let made = with_list(alloc, text, place, end, literal)?;
    let whole = passes(alloc, made.as_slice(), place)?;
    let before = passes(alloc, made.as_slice(), place.saturating_sub(1))?;
    Ok(!whole && before)
}

// The first of the literals that is of the kind of what stands between two places.
fn listed_among(
    alloc: Global,
    text: &[u8],
    place: usize,
    end: usize,
    literals: &[Literal],
) -> Result<Option<Literal>, Memory>
    ensures { IfOk result (λ found. found ≡ listed_among text.now place end literals.now) }
{
    for literal in literals {
        if is_listed(alloc, text, place, end, *literal)? {
            return Ok(Some(*literal));
        }
    }
    Ok(None)
}

// The kind of the list that stands before this token, where a truth could be compared by it.
fn list_before(
    alloc: Global,
    text: &[u8],
    place: usize,
    end: usize,
) -> Result<Option<Literal>, Memory>
    ensures { IfOk result (λ found. found ≡ list_before text.now place end) }
{
    if !can_stand(alloc, text, place, end, Literal::Bool)? {
        return Ok(None);
    }
    listed_among(alloc, text, place, end, &LISTS)
}

/// The list from the place to the first `==` or `!=` of these tokens, if it is one that is compared.
pub fn compared_in(
    alloc: Global,
    text: &[u8],
    place: usize,
    tokens: &[Token],
) -> Result<Option<Compared>, Memory>
    ensures { IfOk result (λ compared. compared ≡ compared_in text.now place (comparison tokens.now)) }
{
    let Some(token) = comparison(tokens) else {
        return Ok(None);
    };
    match list_before(alloc, text, place, token.place)? {
        Some(list) => Ok(Some(Compared {
            operator: token.kind,
            list,
        })),
        None => Ok(None),
    }
}

/// Tells of a list that is compared.
pub fn compared_text(alloc: Global, compared: Compared) -> Result<String, AllocError>
    ensures { IfOk result (λ text. string_bytes text ≡ compared_text compared) }
{
    format!(in alloc;
        "{} of {}",
        label(compared.operator),
        literal_label(compared.list)
    )
}

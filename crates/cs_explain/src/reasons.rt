//! Why a token breaks a rule on kinds.
ghost use Rattle.std.specs.Prelude.{◌≡◌, ◌<◌, ◌≤◌, length, IfSome};
ghost use Rattle.cs_explain.specs.Reasons.{declared_reason, used_reason, is_slot, name_reason, word_reason, reason_of};

use crate::declared::{is_ahead, is_at, is_behind, is_declared_at, is_in_check, last_declared};
use cs_lang_token::{Kind, Token};

/// Why a token breaks a rule on kinds.
#[derive(Clone, Copy, Debug, PartialEq, Eq)]
pub enum Reason {
    /// The token of this number declares the name already.
    Declared(usize),
    /// A slot with a star isn't the last of its part.
    Star,
    /// There are too many of its sort, or its kind nests too many lists.
    Limit,
    /// The word stands in procedures alone.
    InProcedures,
    /// The word stands in checks alone.
    InChecks,
    /// An object gets another number of fields than its type has.
    Fields,
    /// A call gives or takes another number of values than its method does, or a star forbids it.
    Values,
    /// A loop has too many turns.
    Turns,
    /// The name can't be set.
    Unset,
    /// The name is no created slot.
    Uncreated,
    /// The slot is of another type.
    OtherType,
    /// A slot has a star, so its objects stand by their places.
    Starred,
    /// A slot has no star, so no place.
    Unstarred,
    /// The name is that of an object.
    Object,
    /// Another kind of values has to stand here.
    Kind,
}

fn declared_reason(tokens: &[Token], index: usize, other: Option<usize>) -> Reason
    requires { index ≤ length tokens.now }
    ensures { result ≡ declared_reason tokens.now index other }
{
    match other {
        Some(other) => Reason::Declared(other),
        None => {
            if is_ahead(&[Kind::Star], tokens, index, 3) {
                Reason::Star
            } else {
                Reason::Limit
            }
        }
    }
}

// What doesn't go with a slot's star, or with its having none.
fn used_reason(tokens: &[Token], index: usize, slot: usize) -> Reason
    requires index { index ≤ length tokens.now }
    requires slot { slot < index }
    ensures { result ≡ used_reason tokens.now index slot }
{
    let has_place = is_ahead(&[Kind::OpenList], tokens, index, 1);
    if is_ahead(&[Kind::Star], tokens, slot, 3) {
        if has_place {
            Reason::Kind
        } else {
            Reason::Starred
        }
    } else if has_place {
        Reason::Unstarred
    } else if is_ahead(&[Kind::Dot], tokens, index, 1) {
        Reason::Kind
    } else {
        Reason::Object
    }
}

// Whether the token of this number declares a slot.
fn is_slot(tokens: &[Token], other: usize) -> bool
    requires { other ≤ length tokens.now }
    ensures { result ≡ is_slot tokens.now other }
{
    is_ahead(&[Kind::Colon], tokens, other, 1) && is_ahead(&[Kind::Name], tokens, other, 2)
}

// Why a name can't stand for a value, by its last declaration.
fn name_reason(tokens: &[Token], index: usize, other: Option<usize>) -> Reason
    requires index { index ≤ length tokens.now }
    requires other { IfSome other (λ slot. slot < index) }
    ensures { result ≡ name_reason tokens.now index other }
{
    match other {
        Some(slot) => {
            if is_at(&[Kind::Name], tokens, index) && is_slot(tokens, slot) {
                used_reason(tokens, index, slot)
            } else {
                Reason::Kind
            }
        }
        None => Reason::Kind,
    }
}

fn word_reason(tokens: &[Token], index: usize, inside: bool) -> Reason
    requires { index ≤ length tokens.now }
    ensures { result ≡ word_reason tokens.now index inside }
{
    let checks = [Kind::Answer, Kind::Called, Kind::DepInt];
    if inside && is_at(&[Kind::Make, Kind::Call], tokens, index) {
        Reason::InProcedures
    } else if !inside && is_at(&checks, tokens, index) {
        Reason::InChecks
    } else if is_at(&[Kind::Make], tokens, index) {
        Reason::Fields
    } else if is_at(&[Kind::Call], tokens, index) || is_behind(&[Kind::Call], tokens, index) {
        Reason::Values
    } else if is_at(&[Kind::For], tokens, index) {
        Reason::Turns
    } else if is_behind(&[Kind::Set], tokens, index) {
        Reason::Unset
    } else if is_behind(&[Kind::Make], tokens, index) {
        Reason::Uncreated
    } else if is_behind(&[Kind::Becomes], tokens, index)
        && is_at(&[Kind::Make], tokens, index.saturating_sub(3))
    {
        Reason::OtherType
    } else {
        name_reason(tokens, index, last_declared(tokens, index))
    }
}

/// Why the token of this number breaks a rule on kinds.
pub fn reason_of(tokens: &[Token], index: usize) -> Reason
    requires { index ≤ length tokens.now }
    ensures { result ≡ reason_of tokens.now index }
{
    if is_declared_at(tokens, index) {
        declared_reason(tokens, index, last_declared(tokens, index))
    } else {
        let (before, _) = tokens.split_at(index);
        word_reason(tokens, index, is_in_check(before))
    }
}

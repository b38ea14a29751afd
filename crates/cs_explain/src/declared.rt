//! Where tokens declare names.
ghost use Rattle.std.specs.Prelude.{◌≡◌, ◌<◌, ◌≤◌, length, false, IfSome};
ghost use Rattle.cs_explain.specs.NameTokens.{is_at, is_behind, is_ahead, name_at, is_declared_at, same_truth, is_of_one_sort, declares_same, begins_others, last_declared, check_behind, check_behind_all};

use cs_lang_token::{Kind, Token};

/// Whether one of these kinds is that of the token of this number.
pub fn is_at(kinds: &[Kind], tokens: &[Token], index: usize) -> bool
    ensures { result ≡ is_at kinds.now tokens.now index }
{
    match tokens.get(index) {
        Some(token) => token.is_any(kinds),
        None => false,
    }
}

/// Whether one of them is that of the token before.
pub fn is_behind(kinds: &[Kind], tokens: &[Token], index: usize) -> bool
    ensures { result ≡ is_behind kinds.now tokens.now index }
{
    index > 0 && is_at(kinds, tokens, index - 1)
}

/// Whether one of them is that of the token so many further.
pub fn is_ahead(kinds: &[Kind], tokens: &[Token], index: usize, steps: usize) -> bool
    requires { index ≤ length tokens.now }
    ensures { result ≡ is_ahead kinds.now tokens.now index steps }
{
    let (_, behind) = tokens.split_at(index);
    is_at(kinds, behind, steps)
}

/// The name that the token of this number is.
pub fn name_at(tokens: &[Token], index: usize) -> &[u8]
    ensures { result.now ≡ name_at tokens.now index }
{
    match tokens.get(index) {
        Some(token) => token.bytes.as_slice(),
        None => &[],
    }
}

/// Whether the token of this number declares a name: by `type`, `method`, `let` or `for`, as a
/// field or a slot, or by a `call`.
pub fn is_declared_at(tokens: &[Token], index: usize) -> bool
    requires { index ≤ length tokens.now }
    ensures { result ≡ is_declared_at tokens.now index }
{
    let words = [Kind::Type, Kind::Method, Kind::Let, Kind::For];
    let ends = [Kind::Comma, Kind::Becomes];
    is_at(&[Kind::Name], tokens, index)
        && (is_behind(&words, tokens, index)
            || is_ahead(&[Kind::Colon], tokens, index, 1)
            || is_behind(&[Kind::Call], tokens, index) && is_ahead(&ends, tokens, index, 1)
            || is_behind(&[Kind::Comma], tokens, index)
                && is_ahead(&[Kind::Becomes], tokens, index, 1))
}

fn same_truth(a: bool, b: bool) -> bool
    ensures { result ≡ same_truth a b }
{
    if a { b } else { !b }
}

// Whether both declare a type, or both a method, or both another name.
fn is_of_one_sort(tokens: &[Token], a: usize, b: usize) -> bool
    ensures { result ≡ is_of_one_sort tokens.now a b }
{
    let types = [Kind::Type];
    let methods = [Kind::Method];
    same_truth(is_behind(&types, tokens, a), is_behind(&types, tokens, b))
        && same_truth(
            is_behind(&methods, tokens, a),
            is_behind(&methods, tokens, b),
        )
}

// Whether the name that the one declares is declared by the other.
#[tactic(auto, unfolding(crate::specs::NameTokens::declares_same))]
fn declares_same(tokens: &[Token], index: usize, other: usize) -> bool
    requires { other ≤ length tokens.now }
    ensures { result ≡ declares_same tokens.now index other }
{
    is_declared_at(tokens, other)
        && name_at(tokens, other) == name_at(tokens, index)
        && is_of_one_sort(tokens, index, other)
}

// Whether what stands before it declares names of another type or method.
#[tactic(auto, unfolding(crate::specs::NameTokens::begins_others))]
fn begins_others(tokens: &[Token], index: usize, other: usize) -> bool
    ensures { result ≡ begins_others tokens.now index other }
{
    let words = [Kind::Type, Kind::Method];
    !is_behind(&words, tokens, index) && is_at(&words, tokens, other)
}

/// The last token before this one that declares the name that this one declares.
#[tactic(auto, using(crate::proofs::Declarings::one_less))]
pub fn last_declared(tokens: &[Token], index: usize) -> Option<usize>
    requires { index ≤ length tokens.now }
    ensures last { result ≡ last_declared tokens.now index index }
    ensures before { IfSome result (λ other. other < index) }
{
    let mut left = index;
    while left > 0 {
        left -= 1;
        if declares_same(tokens, index, left) {
            return Some(left);
        }
        if begins_others(tokens, index, left) {
            return None;
        }
    }
    None
}

// What a token more says of whether the next stands in a check.
fn check_behind(inside: bool, token: &Token) -> bool
    ensures { result ≡ check_behind inside token.now }
{
    if token.is(Kind::Check) {
        true
    } else if token.is_any(&[Kind::Procedure, Kind::Method]) {
        false
    } else {
        inside
    }
}

/// Whether the token behind all of these stands in a check.
pub fn is_in_check(tokens: &[Token]) -> bool
    ensures { result ≡ check_behind_all false tokens.now }
{
    let mut inside = false;
    for token in tokens {
        inside = check_behind(inside, token);
    }
    inside
}

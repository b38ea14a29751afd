//! The kinds of values that can stand at a place.
ghost use Rattle.std.specs.Prelude.{◌≡◌, ◌++◌, ◌<◌, length, IfOk, OnOk, string_bytes};
ghost use Rattle.cs_explain.specs.Standing.{literal_text, literal_label, fault_behind, passes, with_literal, standing_among, standing_before, tried_tokens, standing_at, literals_text};

use cs_base::Memory;
use cs_lang_token::Token;
use cs_types::{Fault, Unjudged, judged};
use std::alloc::{AllocError, Global};

/// A literal, by its kind.
#[derive(Clone, Copy, Debug, PartialEq, Eq)]
pub enum Literal {
    Int,
    Bool,
    Bytes,
    Ints,
    Bools,
    ByteLists,
}

/// A literal of each kind that is told, in the order in which they are.
pub const LITERALS: [Literal; 6] = [
    Literal::Int,
    Literal::Bool,
    Literal::Bytes,
    Literal::Ints,
    Literal::Bools,
    Literal::ByteLists,
];

// The most tokens for which a literal is tried.
const MOST_TRIED: usize = 64;

/// How the literal is written.
pub fn literal_text(literal: Literal) -> &'static str
    ensures { result.now ≡ literal_text literal }
{
    match literal {
        Literal::Int => "0",
        Literal::Bool => "true",
        Literal::Bytes => "x\"\"",
        Literal::Ints => "empty [int]",
        Literal::Bools => "empty [bool]",
        Literal::ByteLists => "empty [bytes]",
    }
}

/// The kind of the literal.
pub fn literal_label(literal: Literal) -> &'static str
    ensures { result.now ≡ literal_label literal }
{
    match literal {
        Literal::Int => "int",
        Literal::Bool => "bool",
        Literal::Bytes => "bytes",
        Literal::Ints => "[int]",
        Literal::Bools => "[bool]",
        Literal::ByteLists => "[bytes]",
    }
}

// Whether what the text has been refused for is a broken rule behind the place, or its cost.
fn is_behind(place: usize, fault: Fault) -> bool
    ensures { result ≡ fault_behind place fault }
{
    match fault {
        Fault::TooLong => false,
        Fault::Lex(_) => false,
        Fault::Syntax(_) => false,
        Fault::Mistyped(at) => place < at,
        Fault::Unbound(at) => place < at,
        Fault::Cost(_) => true,
    }
}

/// Whether the text is a contract that breaks no rule on names and kinds up to the place.
pub fn passes(alloc: Global, text: &[u8], place: usize) -> Result<bool, Memory>
    ensures { IfOk result (λ passed. passed ≡ passes text.now place) }
{
    match judged(alloc, text) {
        Ok(_checked) => Ok(true),
        Err(Unjudged::Faulty(fault)) => Ok(is_behind(place, fault)),
        Err(Unjudged::Memory) => Err(Memory),
    }
}

// The text with a literal in place of what stands between two places.
fn with_literal(
    alloc: Global,
    text: &[u8],
    place: usize,
    end: usize,
    literal: Literal,
) -> Result<Vec<u8>, Memory>
    ensures { IfOk result (λ made. made.items ≡ with_literal text.now place end literal) }
{
    let (before, _) = text.split_at(place.min(text.len()));
    let (_, behind) = text.split_at(end.min(text.len()));
    let mut made = Vec::from_slice(alloc, before)?;
    made.extend_from_slice(literal_text(literal).as_bytes())?;
    made.push(b' ')?;
    made.extend_from_slice(behind)?;
    Ok(made)
}

/// Whether the literal can stand in place of what stands between two places.
pub fn can_stand(
    alloc: Global,
    text: &[u8],
    place: usize,
    end: usize,
    literal: Literal,
) -> Result<bool, Memory>
    ensures { IfOk result (λ passed. passed ≡ passes (with_literal text.now place end literal) place) }
{
    let made = with_literal(alloc, text, place, end, literal)?;
    passes(alloc, made.as_slice(), place)
}

// Adds those of the literals that can stand in place of what stands between two places.
#[tactic(auto, unfolding(crate::specs::Standing::standing_among))]
fn add_standing(
    alloc: Global,
    text: &[u8],
    place: usize,
    end: usize,
    literals: &[Literal],
    standing: &mut Vec<Literal>,
) -> Result<(), Memory>
    ensures { OnOk result (standing.new.items
        ≡ standing.old.items ++ standing_among text.now place end literals.now) }
{
    for literal in literals {
        if can_stand(alloc, text, place, end, *literal)? {
            standing.push(*literal)?;
        }
    }
    Ok(())
}

// The literals that can stand in place of what ends at the first of these tokens where one can.
fn standing_before(
    alloc: Global,
    text: &[u8],
    place: usize,
    tokens: &[Token],
) -> Result<Vec<Literal>, Memory>
    ensures { IfOk result (λ literals. literals.items ≡ standing_before text.now place tokens.now) }
{
    for token in tokens {
        let mut standing = Vec::new(alloc);
        add_standing(alloc, text, place, token.place, &LITERALS, &mut standing)?;
        if !standing.is_empty() {
            return Ok(standing);
        }
    }
    Ok(Vec::new(alloc))
}

/// The tokens of these for which a literal is tried.
pub fn tried_tokens(tokens: &[Token]) -> &[Token]
    ensures { result.now ≡ tried_tokens tokens.now }
{
    tokens.split_at(tokens.len().min(MOST_TRIED)).0
}

/// The literals that can stand in place of what begins with the token of this number.
pub fn standing_at(
    alloc: Global,
    text: &[u8],
    place: usize,
    tokens: &[Token],
    index: usize,
) -> Result<Vec<Literal>, Memory>
    requires { index < length tokens.now }
    ensures { IfOk result (λ literals. literals.items ≡ standing_at text.now place tokens.now index) }
{
    let (_, behind) = tokens.split_at(index + 1);
    standing_before(alloc, text, place, tried_tokens(behind))
}

/// The kinds of the first three, as they are told behind what stands there.
pub fn literals_text(alloc: Global, literals: &[Literal]) -> Result<String, AllocError>
    ensures { IfOk result (λ text. string_bytes text ≡ literals_text literals.now) }
{
    match literals {
        [] => format!(in alloc; ""),
        [a] => format!(in alloc; ", wanted {}", literal_label(*a)),
        [a, b] => format!(in alloc; ", wanted {} {}", literal_label(*a), literal_label(*b)),
        [a, b, c] => format!(in alloc;
            ", wanted {} {} {}",
            literal_label(*a),
            literal_label(*b),
            literal_label(*c)
        ),
        [a, b, c, ..] => format!(in alloc;
            ", wanted {} {} {} ..",
            literal_label(*a),
            literal_label(*b),
            literal_label(*c)
        ),
    }
}

//! The tokens of a text.
ghost use Rattle.std.specs.Prelude.{◌≡◌, ◌<◌, ◌≤◌, None, Ok, Err, length, IfOk, IfErr};
ghost use Rattle.cs_lang_token.specs.Tokens.{piece_at, AddsPiece, tokens_of};
ghost use Rattle.cs_lang_token.specs.Lexing.{IfBad};

use crate::lexeme::{blank_length, longest};
use crate::token::Token;
use std::alloc::{AllocError, AllocFailed, Global};

/// Why a text has no tokens.
#[derive(Clone, Copy, Debug, PartialEq, Eq)]
pub enum LexError {
    /// Memory ran out.
    Memory,
    /// No token begins at this offset.
    Bad(usize),
}

impl From<AllocError> for LexError {
    ghost use Rattle.std.specs.Prelude.{◌≡◌};
    ghost use Rattle.cs_lang_token.specs.declared.tokens.LexError.TheVariants.{Memory};

    ghost from_gives = { λ _ e. e ≡ Memory };

    fn from(_error: AllocError) -> LexError {
        LexError::Memory
    }
}

impl<T: Drop> From<AllocFailed<T>> for LexError {
    ghost use Rattle.std.specs.Prelude.{◌≡◌};
    ghost use Rattle.cs_lang_token.specs.declared.tokens.LexError.TheVariants.{Memory};

    ghost from_gives = { λ _ e. e ≡ Memory };

    fn from(_error: AllocFailed<T>) -> LexError {
        LexError::Memory
    }
}

/// Takes what stands at the front, a token or what separates tokens, and gives its length.
fn piece(
    alloc: Global,
    place: usize,
    bytes: &[u8],
    tokens: &mut Vec<Token>,
) -> Result<usize, LexError>
    ensures ok { IfOk result (λ n. AddsPiece place bytes.now n tokens.old.items tokens.new.items) }
    ensures bound { IfOk result (λ n. 0 < length bytes.now → (0 < n) × (n ≤ length bytes.now)) }
    ensures bad { IfErr result
        (λ e. IfBad e (λ at. (at ≡ place) × (piece_at place bytes.now ≡ None))) }
{
    let blank = blank_length(bytes);
    if blank > 0 {
        return Ok(blank);
    }
    let Some(found) = longest(alloc, bytes)? else {
        return Err(LexError::Bad(place));
    };
    tokens.push(Token {
        kind: found.kind,
        number: found.number,
        bytes: found.bytes,
        place,
    })?;
    Ok(found.length)
}

/// The tokens of a text, in their order.
pub fn tokens_of(alloc: Global, text: &[u8]) -> Result<Vec<Token>, LexError>
    ensures read { IfOk result (λ tokens. tokens_of text.now ≡ Ok tokens.items) }
    // A refusal names the first place at which no token begins.
    ensures bad { IfErr result (λ e. IfBad e (λ place. tokens_of text.now ≡ Err place)) }
{
    let mut tokens = Vec::new(alloc);
    let mut rest = text;
    let mut place = 0;
    while !rest.is_empty() {
        let length = piece(alloc, place, rest, &mut tokens)?;
        rest = rest.split_at(length).1;
        place += length;
    }
    Ok(tokens)
}

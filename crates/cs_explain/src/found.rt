//! What stands at a place.
ghost use Rattle.std.specs.Prelude.{◌≡◌, ◌++◌, ◌<◌, length, IfOk, IfSome, OnOk};
ghost use Rattle.std.specs.Fmt.{decimal};
ghost use Rattle.cs_lang_token.specs.Tokens.{tokens_of};
ghost use Rattle.cs_explain.specs.Found.{tokens_in, index_of, token_text, token_told, found_text, byte_text};

use crate::words::label;
use cs_base::Memory;
use cs_lang_token::{Kind, LexError, Token, tokens_of};
use std::alloc::Global;

/// The tokens of a text; none where a byte of it begins none.
pub fn tokens_in(alloc: Global, text: &[u8]) -> Result<Vec<Token>, Memory>
    ensures { IfOk result (λ tokens. tokens.items ≡ tokens_in (tokens_of text.now)) }
{
    match tokens_of(alloc, text) {
        Ok(tokens) => Ok(tokens),
        Err(LexError::Memory) => Err(Memory),
        Err(LexError::Bad(_)) => Ok(Vec::new(alloc)),
    }
}

/// Which of the tokens stands at the place.
pub fn index_of(place: usize, tokens: &[Token]) -> Option<usize>
    ensures index { result ≡ index_of place tokens.now }
    ensures within { IfSome result (λ index. index < length tokens.now) }
{
    tokens.iter().position(|token| token.place == place)
}

/// Appends bytes.
pub fn put(bytes: &[u8], out: &mut Vec<u8>) -> Result<(), Memory>
    ensures { OnOk result (out.new.items ≡ out.old.items ++ bytes.now) }
{
    out.extend_from_slice(bytes)?;
    Ok(())
}

// Appends a number.
fn put_number(alloc: Global, number: u64, out: &mut Vec<u8>) -> Result<(), Memory>
    ensures { OnOk result (out.new.items ≡ out.old.items ++ decimal number) }
{
    let text = format!(in alloc; "{number}")?;
    put(text.as_bytes(), out)
}

// Tells a token: a name and a number as they are, a byte text by its word.
fn put_text(alloc: Global, token: &Token, out: &mut Vec<u8>) -> Result<(), Memory>
    ensures { OnOk result (out.new.items ≡ out.old.items ++ token_text token.now) }
{
    if token.is(Kind::Name) {
        put(token.bytes.as_slice(), out)
    } else if token.is(Kind::Number) {
        put_number(alloc, token.number, out)
    } else {
        put(label(token.kind).as_bytes(), out)
    }
}

/// Tells the token of this number, or the end where there is none.
pub fn put_token(
    alloc: Global,
    tokens: &[Token],
    index: usize,
    out: &mut Vec<u8>,
) -> Result<(), Memory>
    ensures { OnOk result (out.new.items ≡ out.old.items ++ token_told tokens.now index) }
{
    match tokens.get(index) {
        Some(token) => put_text(alloc, token, out),
        None => put(b"the end", out),
    }
}

/// Tells the token of this number, or the end where there is none.
pub fn put_found(
    alloc: Global,
    tokens: &[Token],
    index: Option<usize>,
    out: &mut Vec<u8>,
) -> Result<(), Memory>
    ensures { OnOk result (out.new.items ≡ out.old.items ++ found_text tokens.now index) }
{
    match index {
        Some(index) => put_token(alloc, tokens, index, out),
        None => put(b"the end", out),
    }
}

/// Tells a byte that begins no token, by its number where it is no sign or letter.
pub fn put_byte(alloc: Global, byte: u8, out: &mut Vec<u8>) -> Result<(), Memory>
    ensures { OnOk result (out.new.items ≡ out.old.items ++ byte_text byte) }
{
    if 33 <= byte && byte <= 126 {
        return put(&[byte], out);
    }
    let text = format!(in alloc; "byte {byte}")?;
    put(text.as_bytes(), out)
}

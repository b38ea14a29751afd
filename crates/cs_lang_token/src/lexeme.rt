//! The longest token at the front of a text.
ghost use Rattle.std.specs.Prelude.{◌≡◌, ℕ, ◌+◌, ◌<◌, ◌≤◌, ◌==◌, ◌∷◌, List, true, not, position, take, length, Some, IfOk, IfSome};
ghost use Rattle.cs_base.specs.Characters.{is_digit};
ghost use Rattle.cs_lang_token.specs.Tokens.{is_blank, is_letter, is_name_character, is_hex, is_first, starts, run_length, kind_of_word, kind_of_statement_word, kind_of_logic_word, kind_of_value_word, name_lexeme, number_from, number_lexeme, hex_value, hex_bytes, quoted_at, byte_text_at, operator_sign, one_sign, two_sign, sign_at, HasBytes, byte_text_or_word_at, lexeme_at, blank_length};

use crate::kind::Kind;
use crate::limits::{MOST_DIGITS, MOST_NAME, MOST_NUMBER};
use cs_base::Sequence;
use std::alloc::{AllocError, Global};

/// A token at the front of a text, and how many bytes it has.
#[derive(Drop)]
pub struct Lexeme {
    pub kind: Kind,
    pub number: u64,
    pub bytes: Sequence<u8>,
    pub length: usize,
}

fn is_blank(c: u8) -> bool
    ensures { result ≡ is_blank c }
{
    c == b' ' || c == b'\t' || c == b'\r' || c == b'\n'
}

fn is_digit(c: u8) -> bool
    ensures { result ≡ is_digit c }
{
    c >= b'0' && c <= b'9'
}

fn is_letter(c: u8) -> bool
    ensures { result ≡ is_letter c }
{
    c >= b'A' && c <= b'Z' || c >= b'a' && c <= b'z' || c == b'_'
}

fn is_name_character(c: u8) -> bool
    ensures { result ≡ is_name_character c }
{
    is_letter(c) || is_digit(c)
}

fn is_hex(c: u8) -> bool
    ensures { result ≡ is_hex c }
{
    is_digit(c) || c >= b'a' && c <= b'f'
}

/// The bytes at the front, at most so many.
fn front(bytes: &[u8], most: usize) -> &[u8]
    ensures value { result.now ≡ take most bytes.now }
    ensures shorter { length result.now ≤ length bytes.now }
    ensures len { most ≤ length bytes.now → length result.now ≡ most }
{
    if bytes.len() <= most {
        return bytes;
    }
    bytes.split_at(most).0
}

/// Whether the first byte is this one.
fn is_first(c: u8, bytes: &[u8]) -> bool
    ensures { result ≡ is_first c bytes.now }
{
    match bytes {
        [] => false,
        [first, ..] => *first == c,
    }
}

/// The place of the first byte that is no name character.
fn name_end(bytes: &[u8]) -> Option<usize>
    ensures value { result ≡ position (λ c. not (is_name_character c)) bytes.now }
    ensures bound { IfSome result (λ place. place ≤ length bytes.now) }
{
    bytes.iter().position(|c| !is_name_character(*c))
}

/// The place of the first byte that is no hexadecimal digit.
fn hex_end(bytes: &[u8]) -> Option<usize>
    ensures value { result ≡ position (λ c. not (is_hex c)) bytes.now }
    ensures bound { IfSome result (λ place. place ≤ length bytes.now) }
{
    bytes.iter().position(|c| !is_hex(*c))
}

/// The place of the first end of a line.
fn line_end(bytes: &[u8]) -> Option<usize>
    ensures value { result ≡ position (λ b. not (not (b == 10))) bytes.now }
    ensures bound { IfSome result (λ place. place ≤ length bytes.now) }
{
    bytes.iter().position(|b| *b == b'\n')
}

/// How many name characters stand at the front.
fn name_length(bytes: &[u8]) -> usize
    ensures value { result ≡ run_length is_name_character bytes.now }
    ensures bound { result ≤ length bytes.now }
{
    name_end(bytes).unwrap_or(bytes.len())
}

/// How many hexadecimal digits stand at the front.
fn hex_length(bytes: &[u8]) -> usize
    ensures value { result ≡ run_length is_hex bytes.now }
    ensures bound { result ≤ length bytes.now }
{
    hex_end(bytes).unwrap_or(bytes.len())
}

/// How many bytes stand before the end of the line.
fn line_length(bytes: &[u8]) -> usize
    ensures value { result ≡ run_length (λ b. not (b == 10)) bytes.now }
    ensures bound { result ≤ length bytes.now }
{
    line_end(bytes).unwrap_or(bytes.len())
}

fn kind_of_value_word(word: &[u8]) -> Kind
    ensures { result ≡ kind_of_value_word word.now }
{
    if word == b"int".as_slice() {
        Kind::IntKind
    } else if word == b"bool".as_slice() {
        Kind::BoolKind
    } else if word == b"bytes".as_slice() {
        Kind::BytesKind
    } else if word == b"len".as_slice() {
        Kind::Len
    } else if word == b"sha256".as_slice() {
        Kind::Sha256
    } else if word == b"concat".as_slice() {
        Kind::Concat
    } else if word == b"called".as_slice() {
        Kind::Called
    } else if word == b"depint".as_slice() {
        Kind::DepInt
    } else {
        Kind::Name
    }
}

fn kind_of_logic_word(word: &[u8]) -> Kind
    ensures { result ≡ kind_of_logic_word word.now }
{
    if word == b"and".as_slice() {
        Kind::And
    } else if word == b"or".as_slice() {
        Kind::Or
    } else if word == b"not".as_slice() {
        Kind::Not
    } else if word == b"true".as_slice() {
        Kind::True
    } else if word == b"false".as_slice() {
        Kind::False
    } else if word == b"empty".as_slice() {
        Kind::Empty
    } else {
        kind_of_value_word(word)
    }
}

fn kind_of_statement_word(word: &[u8]) -> Kind
    ensures { result ≡ kind_of_statement_word word.now }
{
    if word == b"let".as_slice() {
        Kind::Let
    } else if word == b"set".as_slice() {
        Kind::Set
    } else if word == b"if".as_slice() {
        Kind::If
    } else if word == b"else".as_slice() {
        Kind::Else
    } else if word == b"for".as_slice() {
        Kind::For
    } else if word == b"in".as_slice() {
        Kind::In
    } else if word == b"to".as_slice() {
        Kind::To
    } else if word == b"make".as_slice() {
        Kind::Make
    } else if word == b"call".as_slice() {
        Kind::Call
    } else if word == b"answer".as_slice() {
        Kind::Answer
    } else {
        kind_of_logic_word(word)
    }
}

fn kind_of_word(word: &[u8]) -> Kind
    ensures { result ≡ kind_of_word word.now }
{
    if word == b"type".as_slice() {
        Kind::Type
    } else if word == b"method".as_slice() {
        Kind::Method
    } else if word == b"consumes".as_slice() {
        Kind::Consumes
    } else if word == b"reads".as_slice() {
        Kind::Reads
    } else if word == b"takes".as_slice() {
        Kind::Takes
    } else if word == b"creates".as_slice() {
        Kind::Creates
    } else if word == b"returns".as_slice() {
        Kind::Returns
    } else if word == b"procedure".as_slice() {
        Kind::Procedure
    } else if word == b"check".as_slice() {
        Kind::Check
    } else {
        kind_of_statement_word(word)
    }
}

/// A name or a reserved word.
#[tactic(auto, using(crate::proofs::Runs::word_positive))]
fn word(alloc: Global, bytes: &[u8]) -> Result<Lexeme, AllocError>
    requires { starts is_letter bytes.now ≡ true }
    ensures value { IfOk result (λ x. x ≡ name_lexeme bytes.now) }
    ensures bound { IfOk result (λ x. HasBytes x (length bytes.now)) }
{
    let length = name_length(front(bytes, MOST_NAME));
    let word = front(bytes, length);
    Ok(Lexeme {
        kind: kind_of_word(word),
        number: 0,
        bytes: Sequence::from_vec(Vec::from_slice(alloc, word)?),
        length,
    })
}

/// A number that has this value so far, and how many digits go on with it.
fn number_from(value: u64, digits: &[u8]) -> (u64, usize)
    ensures value { result ≡ number_from value digits.now }
    ensures bound { result.1 ≤ length digits.now }
{
    match digits {
        [c, rest @ ..] if is_digit(*c) => {
            let next = u128::from(value) * 10 + u128::from(*c - b'0');
            if next > MOST_NUMBER {
                return (value, 0);
            }
            let (number, count) = number_from(next as u64, rest);
            (number, count + 1)
        }
        _ => (value, 0),
    }
}

/// A number whose first digit is this one.
fn number(alloc: Global, first: u8, rest: &[u8]) -> Lexeme
    requires { (48 ≤ first) × (first ≤ 57) }
    ensures value { result ≡ number_lexeme first rest.now }
    ensures bound { HasBytes result (length rest.now + 1) }
{
    if first == b'0' {
        return Lexeme {
            kind: Kind::Number,
            number: 0,
            bytes: Sequence::new(alloc),
            length: 1,
        };
    }
    let (number, count) = number_from(u64::from(first - b'0'), rest);
    Lexeme {
        kind: Kind::Number,
        number,
        bytes: Sequence::new(alloc),
        length: count + 1,
    }
}

fn hex_value(c: u8) -> u8
    ensures value { result ≡ hex_value c }
    ensures bound { result < 16 }
{
    if is_digit(c) {
        c - b'0'
    } else if is_hex(c) {
        c - 87
    } else {
        0
    }
}

/// The bytes of which the digits are two each.
fn hex_bytes(alloc: Global, digits: &[u8]) -> Result<Sequence<u8>, AllocError>
    ensures { IfOk result (λ bytes. bytes ≡ hex_bytes digits.now) }
{
    let mut all = Sequence::new(alloc);
    let mut left = digits;
    while let [high, low, rest @ ..] = left {
        all.push(hex_value(*high) * 16 + hex_value(*low))?;
        left = rest;
    }
    Ok(all)
}

/// What belongs behind the quote of a byte text.
fn quoted_bytes(alloc: Global, rest: &[u8]) -> Result<Option<Lexeme>, AllocError>
    ensures value { IfOk result (λ x. x ≡ quoted_at rest.now) }
    ensures bound { IfOk result (λ found. IfSome found (λ x. HasBytes x (length rest.now + 2))) }
{
    let count = hex_length(front(rest, MOST_DIGITS));
    let (digits, behind) = rest.split_at(count);
    if count % 2 == 0 && is_first(b'"', behind) {
        return Ok(Some(Lexeme {
            kind: Kind::Bytes,
            number: 0,
            bytes: hex_bytes(alloc, digits)?,
            length: count + 3,
        }));
    }
    Ok(None)
}

/// A byte text, where there is one.
fn byte_text(alloc: Global, bytes: &[u8]) -> Result<Option<Lexeme>, AllocError>
    ensures value { IfOk result (λ x. x ≡ byte_text_at bytes.now) }
    ensures bound { IfOk result (λ found. IfSome found (λ x. HasBytes x (length bytes.now))) }
{
    match bytes {
        [c, d, rest @ ..] => {
            if *c == b'x' && *d == b'"' {
                return quoted_bytes(alloc, rest);
            }
            Ok(None)
        }
        _ => Ok(None),
    }
}

fn operator_sign(c: u8) -> Option<Kind>
    ensures { result ≡ operator_sign c }
{
    match c {
        b'.' => Some(Kind::Dot),
        b'*' => Some(Kind::Star),
        b'=' => Some(Kind::Becomes),
        b'<' => Some(Kind::Less),
        b'>' => Some(Kind::Greater),
        b'+' => Some(Kind::Plus),
        b'-' => Some(Kind::Minus),
        b'/' => Some(Kind::Slash),
        b'%' => Some(Kind::Percent),
        _ => None,
    }
}

/// The sign of one character.
fn one_sign(c: u8) -> Option<Kind>
    ensures { result ≡ one_sign c }
{
    match c {
        b'(' => Some(Kind::Open),
        b')' => Some(Kind::Close),
        b'{' => Some(Kind::OpenBlock),
        b'}' => Some(Kind::CloseBlock),
        b'[' => Some(Kind::OpenList),
        b']' => Some(Kind::CloseList),
        b',' => Some(Kind::Comma),
        b';' => Some(Kind::Semicolon),
        b':' => Some(Kind::Colon),
        _ => operator_sign(c),
    }
}

/// The sign that the character and `=` make.
fn two_sign(c: u8) -> Option<Kind>
    ensures { result ≡ two_sign c }
{
    match c {
        b'=' => Some(Kind::Equal),
        b'!' => Some(Kind::NotEqual),
        b'<' => Some(Kind::LessOrEqual),
        b'>' => Some(Kind::GreaterOrEqual),
        _ => None,
    }
}

/// A sign, where there is one.
fn sign(alloc: Global, c: u8, rest: &[u8]) -> Option<Lexeme>
    ensures value { result ≡ sign_at c rest.now }
    ensures bound { IfSome result (λ x. HasBytes x (length rest.now + 1)) }
{
    if is_first(b'=', rest) {
        if let Some(kind) = two_sign(c) {
            return Some(Lexeme {
                kind,
                number: 0,
                bytes: Sequence::new(alloc),
                length: 2,
            });
        }
    }
    let kind = one_sign(c)?;
    Some(Lexeme {
        kind,
        number: 0,
        bytes: Sequence::new(alloc),
        length: 1,
    })
}

/// A byte text, or else a word.
fn byte_text_or_word(alloc: Global, bytes: &[u8]) -> Result<Lexeme, AllocError>
    requires { starts is_letter bytes.now ≡ true }
    ensures value { IfOk result (λ x. Some x ≡ byte_text_or_word_at bytes.now) }
    ensures bound { IfOk result (λ x. HasBytes x (length bytes.now)) }
{
    if let Some(found) = byte_text(alloc, bytes)? {
        return Ok(found);
    }
    word(alloc, bytes)
}

/// The longest token at the front, where there is one.
pub fn longest(alloc: Global, bytes: &[u8]) -> Result<Option<Lexeme>, AllocError>
    ensures value { IfOk result (λ x. x ≡ lexeme_at bytes.now) }
    ensures bound { IfOk result (λ found. IfSome found (λ x. HasBytes x (length bytes.now))) }
{
    match bytes {
        [] => Ok(None),
        [c, rest @ ..] => {
            if is_letter(*c) {
                return Ok(Some(byte_text_or_word(alloc, bytes)?));
            }
            if is_digit(*c) {
                return Ok(Some(number(alloc, *c, rest)));
            }
            Ok(sign(alloc, *c, rest))
        }
    }
}

/// How many bytes at the front separate tokens.
pub fn blank_length(bytes: &[u8]) -> usize
    ensures value { result ≡ blank_length bytes.now }
    ensures bound { result ≤ length bytes.now }
{
    match bytes {
        [] => 0,
        [c, rest @ ..] => {
            if is_blank(*c) {
                return 1;
            }
            if *c == b'/' && is_first(b'/', rest) {
                return line_length(bytes);
            }
            0
        }
    }
}

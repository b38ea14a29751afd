//! Texts cut at a byte: lines, and the fields of a line.
ghost use Rattle.std.specs.Prelude.{◌≡◌, ℕ, ◌==◌, ◌<◌, ◌∷◌, [], length, IfOk, IfSome, IfNone, None, position};
ghost use Rattle.std.specs.List.{slice_split, before_first, after_first};
ghost use Rattle.std.specs.Str.Lines.{strip_carriage_return};
ghost use Rattle.cs_base.specs.Lines.{fields_of, views};

use crate::memory::Memory;
use std::alloc::Global;

/// The place of the first byte of this value.
pub fn place_of(text: &[u8], wanted: u8) -> Option<usize>
    ensures { result ≡ position (λ byte. byte == wanted) text.now }
{
    text.iter().position(|byte| *byte == wanted)
}

/// The part in front of the first byte of this value, and what follows that byte.
pub fn split_at_byte(text: &[u8], wanted: u8) -> Option<(&[u8], &[u8])>
    ensures found { let cuts = λ (byte : ℕ). byte == wanted in
        IfSome result (λ x. slice_split cuts text.now ≡ x.0.now ∷ slice_split cuts x.1.now) }
    ensures front { IfSome result (λ x. x.0.now ≡ before_first (λ byte. byte == wanted) text.now) }
    ensures back { IfSome result (λ x. x.1.now ≡ after_first (λ byte. byte == wanted) text.now) }
    ensures shorter { IfSome result (λ x. length x.1.now < length text.now) }
    ensures none { IfNone result (slice_split (λ byte. byte == wanted) text.now ≡ text.now ∷ []) }
    ensures absent { IfNone result (position (λ byte. byte == wanted) text.now ≡ None) }
{
    match place_of(text, wanted) {
        Some(at) => {
            let (front, _) = text.split_at(at);
            let (_, back) = text.split_at(at + 1);
            Some((front, back))
        }
        None => None,
    }
}

/// A line that stood before LF, without the CR at its end, if it has one.
pub fn strip_return(line: &[u8]) -> &[u8]
    ensures { result.now ≡ strip_carriage_return line.now }
{
    match line {
        [front @ .., b'\r'] => front,
        _ => line,
    }
}

/// What stands between the spaces of a line. No field is empty.
pub fn fields(alloc: Global, line: &[u8]) -> Result<Vec<&[u8]>, Memory>
    ensures { IfOk result (λ fields. views fields.items ≡ fields_of line.now) }
{
    let mut fields = Vec::new(alloc);
    let mut rest = line;
    while let Some((field, after)) = split_at_byte(rest, b' ') {
        if !field.is_empty() {
            fields.push(field)?;
        }
        rest = after;
    }
    if !rest.is_empty() {
        fields.push(rest)?;
    }
    Ok(fields)
}

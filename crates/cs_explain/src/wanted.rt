//! The tokens that can stand at a place.
ghost use Rattle.std.specs.Prelude.{◌≡◌, ◌++◌, IfOk, OnOk, string_bytes};
ghost use Rattle.cs_explain.specs.Wanted.{with_token, wanted_among, wanted_at, kinds_text};
ghost use Rattle.cs_explain.specs.Fronts.{goes_on};

use crate::fronts::goes_on;
use crate::words::{ORDER, label, spelling};
use cs_base::Memory;
use cs_lang_token::Kind;
use std::alloc::{AllocError, Global};

// A front with a token more, on a line of its own: what stands before may be a comment.
fn with_token(alloc: Global, front: &[u8], kind: Kind) -> Result<Vec<u8>, Memory>
    ensures { IfOk result (λ text. text.items ≡ with_token front.now kind) }
{
    let mut text = Vec::from_slice(alloc, front)?;
    text.push(b'\n')?;
    text.extend_from_slice(spelling(kind).as_bytes())?;
    Ok(text)
}

// Whether a token of the kind can stand behind a front.
fn can_follow(alloc: Global, front: &[u8], kind: Kind) -> Result<bool, Memory>
    ensures { IfOk result (λ goes. goes ≡ goes_on (with_token front.now kind)) }
{
    let text = with_token(alloc, front, kind)?;
    goes_on(alloc, text.as_slice())
}

// Adds those of the kinds that can stand behind a front.
#[tactic(auto, unfolding(crate::specs::Wanted::wanted_among))]
fn add_wanted(
    alloc: Global,
    front: &[u8],
    kinds: &[Kind],
    wanted: &mut Vec<Kind>,
) -> Result<(), Memory>
    ensures { OnOk result (wanted.new.items ≡ wanted.old.items ++ wanted_among front.now kinds.now) }
{
    for kind in kinds {
        if can_follow(alloc, front, *kind)? {
            wanted.push(*kind)?;
        }
    }
    Ok(())
}

/// The kinds of tokens that can stand at the place of a text, where what is before it stays.
pub fn wanted_at(alloc: Global, text: &[u8], place: usize) -> Result<Vec<Kind>, Memory>
    ensures { IfOk result (λ kinds. kinds.items ≡ wanted_at text.now place) }
{
    let (front, _) = text.split_at(place.min(text.len()));
    let mut wanted = Vec::new(alloc);
    add_wanted(alloc, front, &ORDER, &mut wanted)?;
    Ok(wanted)
}

/// The first three of the kinds, as they are told.
pub fn kinds_text(alloc: Global, kinds: &[Kind]) -> Result<String, AllocError>
    ensures { IfOk result (λ text. string_bytes text ≡ kinds_text kinds.now) }
{
    match kinds {
        [] => format!(in alloc; "nothing"),
        [a] => format!(in alloc; "{}", label(*a)),
        [a, b] => format!(in alloc; "{} {}", label(*a), label(*b)),
        [a, b, c] => format!(in alloc; "{} {} {}", label(*a), label(*b), label(*c)),
        [a, b, c, ..] => format!(in alloc; "{} {} {} ..", label(*a), label(*b), label(*c)),
    }
}

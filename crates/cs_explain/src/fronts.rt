//! Whether a text is the front of a contract text.
ghost use Rattle.std.specs.Prelude.{◌≡◌, ◌↔◌, ℕ, List, take, true, IfOk};
ghost use Rattle.cs_lang_token.specs.declared.kind.Kind.{Kind};
ghost use Rattle.cs_explain.specs.Fronts.{IsFront, goes_on};
ghost use Rattle.cs_explain.specs.Wanted.{IsOneOf, with_token, wanted_at};

use cs_base::Memory;
use cs_lang::{LangError, parse};
use std::alloc::Global;

/// Reading from the left comes to the end of exactly the fronts of contract texts; so a kind of
/// tokens is wanted at a place exactly where the text before it, with such a token behind it on a
/// line of its own, is such a front.
///
/// It does nothing: its contract is a theorem, which a caller has by calling it.
pub fn wanted_tokens_can_stand()
    ensures fronts { (text : List ℕ) → (goes_on text ≡ true) ↔ IsFront text }
    ensures wanted { (text : List ℕ) (place : ℕ) (kind : Kind)
        → IsOneOf kind (wanted_at text place) ↔ IsFront (with_token (take place text) kind) }
{}

/// Whether the text is the front of a contract text: whether one begins with its tokens.
pub fn goes_on(alloc: Global, text: &[u8]) -> Result<bool, Memory>
    ensures { IfOk result (λ goes. goes ≡ goes_on text.now) }
{
    match parse(alloc, text) {
        Ok(_contract) => Ok(true),
        Err(LangError::Memory) => Err(Memory),
        // It stops behind the last byte too where it wants more.
        Err(LangError::Syntax(place)) => Ok(place == text.len()),
        Err(LangError::TooLong) => Ok(false),
        Err(LangError::Lex(_)) => Ok(false),
    }
}

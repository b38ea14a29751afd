//! Why a text is refused as a contract.
ghost use Rattle.std.specs.Prelude.{◌≡◌, IfOk, string_bytes};
ghost use Rattle.cs_types.specs.Faults.{fault_status, fault_text, place_text, limit_fault_text};

use crate::position::{Position, position_at};
use cs_lang_token::MOST_TEXT;
use std::alloc::{AllocError, Global};

/// Why a text is refused as a contract. Places are offsets into it.
#[derive(Clone, Copy, Debug, PartialEq, Eq)]
pub enum Fault {
    /// It has more bytes than a text may have.
    TooLong,
    /// No token begins here.
    Lex(usize),
    /// No contract text goes on with the token here, or the text stops here too early.
    Syntax(usize),
    /// A rule on kinds is broken here.
    Mistyped(usize),
    /// The name here isn't in sight, or isn't declared.
    Unbound(usize),
    /// What the first body costs that costs too much.
    Cost(u64),
}

impl Fault {
    /// The status of a program that answers with this fault.
    pub fn status(&self) -> u8
        ensures { result ≡ fault_status self.now }
    {
        match self {
            Fault::TooLong => 13,
            _ => 3,
        }
    }

    /// The line that tells of it, where this is the text.
    pub fn line(&self, alloc: Global, text: &[u8]) -> Result<String, AllocError>
        ensures { IfOk result (λ line. string_bytes line ≡ fault_text text.now self.now) }
    {
        match *self {
            Fault::TooLong => limit_line(alloc, position_at(text, MOST_TEXT)),
            Fault::Lex(place) => place_line(alloc, position_at(text, place), "lex"),
            Fault::Syntax(place) => place_line(alloc, position_at(text, place), "syntax"),
            Fault::Mistyped(place) => place_line(alloc, position_at(text, place), "mistyped"),
            Fault::Unbound(place) => place_line(alloc, position_at(text, place), "unbound"),
            Fault::Cost(cost) => format!(in alloc; "refused cost {cost}\n"),
        }
    }
}

// The line of a text that is too long, by the position of the first byte that is too much.
fn limit_line(alloc: Global, position: Position) -> Result<String, AllocError>
    ensures { IfOk result (λ line. string_bytes line ≡ limit_fault_text position) }
{
    format!(in alloc; "limit {}\n", position.line)
}

// The line of a fault that has a place.
fn place_line(alloc: Global, position: Position, cause: &str) -> Result<String, AllocError>
    ensures { IfOk result (λ line. string_bytes line ≡ place_text position cause.now) }
{
    format!(in alloc; "refused {} {} {cause}\n", position.line, position.column)
}

//! Why a line of a text is refused.
ghost use Rattle.std.specs.Prelude.{◌≡◌, Some, IfOk, string_bytes};
ghost use Rattle.cs_text.specs.Refusals.{word_of, refusal_text, refused_text, limit_text, refusal_status};

use std::alloc::{AllocError, Global};
use std::fmt;

/// Why a line is refused.
#[derive(Clone, Copy, Debug, PartialEq, Eq)]
pub enum Cause {
    /// The line's word is unknown, or can't stand at this place.
    Word,
    /// Another number of fields than the line has.
    Count,
    /// No decimal number below 2^64, or one with a sign or leading zeros.
    Number,
    /// A number, a length or a count of lines outside its limits.
    Limit,
    /// No name, or that of no node or client of the configuration.
    Node,
    /// An honest node, a liar or a client, where it can't stand.
    Role,
    /// A liar that stands twice, or one more than a shard may have.
    Liars,
    /// No text of hex digits in pairs, or a master of another length than 32 bytes.
    Hex,
    /// Bytes that are the encoding of no object.
    Object,
    /// A contract that is refused.
    Contract,
    /// An object with the key of an earlier one.
    Key,
    /// The text ended before its line `end`.
    End,
    /// A line stands behind `end`.
    After,
}

/// The first bad line of a text, numbered from 1, and why it is bad.
#[derive(Clone, Copy, Debug, PartialEq, Eq)]
pub struct Refusal {
    pub line: u64,
    pub cause: Cause,
}

impl fmt::Display for Cause {
    ghost output = { λ cause. Some (word_of cause) };

    fn fmt<W: fmt::Write>(&self, f: &mut fmt::Formatter<W>) -> fmt::Result {
        f.write_str(match self {
            Cause::Word => "word",
            Cause::Count => "count",
            Cause::Number => "number",
            Cause::Limit => "limit",
            Cause::Node => "node",
            Cause::Role => "role",
            Cause::Liars => "liars",
            Cause::Hex => "hex",
            Cause::Object => "object",
            Cause::Contract => "contract",
            Cause::Key => "key",
            Cause::End => "end",
            Cause::After => "after",
        })
    }
}

impl Refusal {
    /// The status of a program that answers with this refusal.
    pub fn status(&self) -> u8
        ensures { result ≡ refusal_status self.now.cause }
    {
        match self.cause {
            Cause::Limit => 13,
            _ => 3,
        }
    }
}

/// The line that is printed of a refusal, with its LF.
pub fn refusal_line(alloc: Global, refusal: Refusal) -> Result<String, AllocError>
    ensures { IfOk result (λ text. string_bytes text ≡ refusal_text refusal.line refusal.cause) }
{
    match refusal.cause {
        Cause::Limit => limit_line(alloc, refusal.line),
        _ => refused_line(alloc, refusal.line, refusal.cause),
    }
}

fn refused_line(alloc: Global, line: u64, cause: Cause) -> Result<String, AllocError>
    ensures { IfOk result (λ text. string_bytes text ≡ refused_text line cause) }
{
    format!(in alloc; "refused {line} {cause}\n")
}

fn limit_line(alloc: Global, line: u64) -> Result<String, AllocError>
    ensures { IfOk result (λ text. string_bytes text ≡ limit_text line) }
{
    format!(in alloc; "limit {line}\n")
}

//! The lines of a transaction, and of a text that is none.
ghost use Rattle.std.specs.Prelude.{◌≡◌, IfOk, string_bytes};
ghost use Rattle.cs_transact.specs.Lines.{hex_line, message_line, output_line, field_line, trace_line, refused_line};

use crate::refusal::{Refusal, TraceField};
use cs_base::Memory;
use cs_tx_value::Digest;
use std::alloc::Global;

/// A word, and bytes as hex.
pub(crate) fn hex_line(alloc: Global, word: &str, bytes: &[u8]) -> Result<String, Memory>
    ensures { IfOk result (λ line. string_bytes line ≡ hex_line word.now bytes.now) }
{
    let text = hex::encode(alloc, bytes)?;
    Ok(format!(in alloc; "{word} {text}\n")?)
}

/// The message of the trace with this number.
pub(crate) fn message_line(alloc: Global, number: usize, message: &Digest) -> Result<String, Memory>
    ensures { IfOk result (λ line. string_bytes line ≡ message_line number message.now) }
{
    let text = hex::encode(alloc, message.as_slice())?;
    Ok(format!(in alloc; "message {number} {text}\n")?)
}

/// The name of the output at this place of the trace with this number.
pub(crate) fn output_line(
    alloc: Global,
    number: u16,
    place: u16,
    name: &Digest,
) -> Result<String, Memory>
    ensures { IfOk result (λ line. string_bytes line ≡ output_line number place name.now) }
{
    let text = hex::encode(alloc, name.as_slice())?;
    Ok(format!(in alloc; "output {number} {place} {text}\n")?)
}

fn field_line(
    alloc: Global,
    cause: &str,
    number: usize,
    field: TraceField,
) -> Result<String, Memory>
    ensures { IfOk result (λ line. string_bytes line ≡ field_line cause.now number field) }
{
    Ok(format!(in alloc; "{cause}{number} {}\n", field.name())?)
}

fn trace_line(alloc: Global, cause: &str, number: u16) -> Result<String, Memory>
    ensures { IfOk result (λ line. string_bytes line ≡ trace_line cause.now number) }
{
    Ok(format!(in alloc; "{cause}{number}\n")?)
}

/// The line of a refusal.
pub(crate) fn refused_line(alloc: Global, refusal: Refusal) -> Result<String, Memory>
    ensures { IfOk result (λ line. string_bytes line ≡ refused_line refusal) }
{
    match refusal {
        Refusal::Toml => Ok(String::from_str(alloc, "refused toml\n")?),
        Refusal::Traces => Ok(String::from_str(alloc, "refused field traces\n")?),
        Refusal::Many => Ok(String::from_str(alloc, "refused limit traces\n")?),
        Refusal::Field(number, field) => field_line(alloc, "refused field ", number, field),
        Refusal::Limit(number, field) => field_line(alloc, "refused limit ", number, field),
        Refusal::Large => Ok(String::from_str(alloc, "refused large\n")?),
        Refusal::NoInput => Ok(String::from_str(alloc, "refused input\n")?),
        Refusal::Twice(name) => hex_line(alloc, "refused twice", name.as_slice()),
        Refusal::Foreign(number) => trace_line(alloc, "refused foreign ", number),
        Refusal::Dep(number) => trace_line(alloc, "refused dep ", number),
    }
}

//! The lines that are printed.
ghost use Rattle.std.specs.Prelude.{◌≡◌, Some, IfOk, string_bytes};
ghost use Rattle.cs_node_rules.specs.Lines.{drop_cause_text, drop_line, view_line, error_text};
ghost use Rattle.cs_replay_rules.specs.Lines.{at_line, datagram_kind, sent_line, limit_line, forged_line};
ghost use Rattle.cs_replay_play.specs.Digests.{history_lines, sent_text};

use crate::parcel::Parcel;
use cs_base::{Memory, NodeId, print_bytes};
use cs_node_rules::Cause;
use cs_tx::Digest;
use cs_wire::OpenError;
use std::alloc::Global;
use std::fmt;

/// The word of the first test of opening that failed.
fn error_word(error: OpenError) -> &'static str
    ensures { result.now ≡ error_text error }
{
    match error {
        OpenError::Short => "short",
        OpenError::Magic => "magic",
        OpenError::Kind => "kind",
        OpenError::NotMine => "mine",
        OpenError::Stranger => "stranger",
        OpenError::Length => "length",
        OpenError::Tag => "tag",
        OpenError::Body => "body",
    }
}

/// The word of a cause.
#[derive(Clone, Copy)]
struct Word(Cause);

impl fmt::Display for Word {
    ghost output = { λ word. Some (drop_cause_text word.0) };

    fn fmt<W: fmt::Write>(&self, f: &mut fmt::Formatter<W>) -> fmt::Result {
        f.write_str(match self.0 {
            Cause::Unopened(error) => error_word(error),
            Cause::Mine => "mine",
            Cause::Role => "role",
            Cause::Malformed => "malformed",
            Cause::Old => "old",
            Cause::Far => "far",
            Cause::Leader => "leader",
            Cause::Repeat => "repeat",
            Cause::Unasked => "unasked",
            Cause::Denied => "denied",
            Cause::Full => "full",
            Cause::NoProof => "noproof",
        })
    }
}

/// The line of a datagram that a node dropped.
pub fn drop_line(alloc: Global, me: NodeId, cause: Cause) -> Result<String, Memory>
    ensures { IfOk result (λ text. string_bytes text ≡ drop_line me cause) }
{
    let word = Word(cause);
    Ok(format!(in alloc; "drop {me} {word}\n")?)
}

/// The line of a view that a node entered.
pub fn view_line(alloc: Global, me: NodeId, slot: u64, view: u16) -> Result<String, Memory>
    ensures { IfOk result (λ text. string_bytes text ≡ view_line me slot view) }
{
    Ok(format!(in alloc; "view {me} slot {slot} {view}\n")?)
}

/// The line of an event, by its number and that of its line.
pub fn at_line(alloc: Global, event: u64, line: u64) -> Result<String, Memory>
    ensures { IfOk result (λ text. string_bytes text ≡ at_line event line) }
{
    Ok(format!(in alloc; "at {event} {line}\n")?)
}

/// The line of a datagram that was sent, with its number.
pub fn sent_line(alloc: Global, number: u64, parcel: &Parcel) -> Result<String, Memory>
    ensures { IfOk result (λ text. string_bytes text ≡ sent_line number parcel.now) }
{
    let kind = kind_in(parcel.bytes());
    let bytes = print_bytes(alloc, parcel.bytes())?;
    parcel_line(alloc, number, parcel.from(), parcel.to(), kind, &bytes)
}

fn parcel_line(
    alloc: Global,
    number: u64,
    from: NodeId,
    to: NodeId,
    kind: u8,
    bytes: &str,
) -> Result<String, Memory>
    ensures { IfOk result (λ text. string_bytes text ≡ sent_text number from to kind bytes.now) }
{
    Ok(format!(in alloc; "sent {number} {from} {to} {kind} {bytes}\n")?)
}

// The kind of a datagram.
fn kind_in(bytes: &[u8]) -> u8
    ensures { result ≡ datagram_kind bytes.now }
{
    match bytes.get(4) {
        Some(kind) => *kind,
        None => 0,
    }
}

/// The line of an event that would have passed a limit.
pub fn limit_line(alloc: Global, line: u64) -> Result<String, Memory>
    ensures { IfOk result (λ text. string_bytes text ≡ limit_line line) }
{
    Ok(format!(in alloc; "limit {line}\n")?)
}

/// The line of an event that would give a node a forged datagram.
pub fn forged_line(alloc: Global, line: u64) -> Result<String, Memory>
    ensures { IfOk result (λ text. string_bytes text ≡ forged_line line) }
{
    Ok(format!(in alloc; "forged {line}\n")?)
}

/// The lines of the history: the number of its transactions, and then each one's digest.
pub fn history_text(alloc: Global, digests: &[Digest]) -> Result<String, Memory>
    ensures { IfOk result (λ text. string_bytes text ≡ history_lines digests.now) }
{
    let count = digests.len();
    let mut text = format!(in alloc; "history {count}\n")?;
    for digest in digests {
        let digest = print_bytes(alloc, digest.as_slice())?;
        let line = format!(in alloc; "tx {digest}\n")?;
        text.push_str(&line)?;
    }
    Ok(text)
}

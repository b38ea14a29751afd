//! The line of a case.
ghost use Rattle.std.specs.Prelude.{◌≡◌, ◌++◌, codes, OnOk, IfOk, string_bytes};
ghost use Rattle.std.specs.Fmt.{decimal};
ghost use Rattle.cs_trial.specs.Printed.{position_text, place_text, no_text, outcome_text, is_as_wanted, wanted_text, unless_wanted, returns_text, trace_text, made_text, asked_text, case_text, cause_word, refused_text, limit_text};

use crate::outcome::Outcome;
use cs_base::Memory;
use cs_cases::{Asked, Cause, Refused, Wanted, put_objects, put_values};
use cs_tx_types::Trace;
use cs_tx_value::Value;
use cs_types::{Position, position_at};
use std::alloc::{AllocError, Global};

fn position_text(alloc: Global, position: Position) -> Result<String, AllocError>
    ensures { IfOk result (λ text. string_bytes text ≡ position_text position) }
{
    format!(in alloc; " {} {}", position.line, position.column)
}

fn number_text(alloc: Global, number: u64) -> Result<String, AllocError>
    ensures { IfOk result (λ text. string_bytes text ≡ decimal number) }
{
    format!(in alloc; "{number}")
}

fn put_number(alloc: Global, number: u64, out: &mut Vec<u8>) -> Result<(), Memory>
    ensures { OnOk result (out.new.items ≡ out.old.items ++ decimal number) }
{
    let text = number_text(alloc, number)?;
    out.extend_from_slice(text.as_bytes())?;
    Ok(())
}

// Where the contract's text stands so.
fn put_place(alloc: Global, text: &[u8], place: usize, out: &mut Vec<u8>) -> Result<(), Memory>
    ensures { OnOk result (out.new.items ≡ out.old.items ++ place_text text.now place) }
{
    let line = position_text(alloc, position_at(text, place))?;
    out.extend_from_slice(line.as_bytes())?;
    Ok(())
}

fn put_no(alloc: Global, text: &[u8], place: Option<usize>, out: &mut Vec<u8>) -> Result<(), Memory>
    ensures { OnOk result (out.new.items ≡ out.old.items ++ no_text text.now place) }
{
    match place {
        Some(place) => {
            out.extend_from_slice(b" no")?;
            put_place(alloc, text, place, out)
        }
        None => {
            out.extend_from_slice(b" no - -")?;
            Ok(())
        }
    }
}

fn put_yes(alloc: Global, cost: u64, out: &mut Vec<u8>) -> Result<(), Memory>
    ensures { OnOk result (out.new.items ≡ out.old.items ++ (codes " yes " ++ decimal cost)) }
{
    out.extend_from_slice(b" yes ")?;
    put_number(alloc, cost, out)
}

fn put_trap(alloc: Global, text: &[u8], place: usize, out: &mut Vec<u8>) -> Result<(), Memory>
    ensures { OnOk result
        (out.new.items ≡ out.old.items ++ (codes " trap" ++ place_text text.now place)) }
{
    out.extend_from_slice(b" trap")?;
    put_place(alloc, text, place, out)
}

fn put_word(word: &[u8], out: &mut Vec<u8>) -> Result<(), Memory>
    ensures { OnOk result (out.new.items ≡ out.old.items ++ word.now) }
{
    out.extend_from_slice(word)?;
    Ok(())
}

// What a case of the contract of this text came to.
fn put_outcome(
    alloc: Global,
    text: &[u8],
    outcome: Outcome,
    out: &mut Vec<u8>,
) -> Result<(), Memory>
    ensures { OnOk result (out.new.items ≡ out.old.items ++ outcome_text text.now outcome) }
{
    match outcome {
        Outcome::Yes(cost) => put_yes(alloc, cost, out),
        Outcome::No(place) => put_no(alloc, text, place, out),
        Outcome::Trap(place) => put_trap(alloc, text, place, out),
        Outcome::Args => put_word(b" args", out),
        Outcome::Large => put_word(b" large", out),
    }
}

/// Whether it came to what was wanted.
pub fn is_as_wanted(wanted: Wanted, outcome: Outcome) -> bool
    ensures { result ≡ is_as_wanted wanted outcome }
{
    match (wanted, outcome) {
        (Wanted::Yes, Outcome::Yes(_)) => true,
        (Wanted::No, Outcome::No(_)) => true,
        (Wanted::Trap, Outcome::Trap(_)) => true,
        _ => false,
    }
}

fn wanted_text(wanted: Wanted) -> &'static [u8]
    ensures { result.now ≡ wanted_text wanted }
{
    match wanted {
        Wanted::Yes => b" wanted yes".as_slice(),
        Wanted::No => b" wanted no".as_slice(),
        Wanted::Trap => b" wanted trap".as_slice(),
    }
}

fn put_unless_wanted(wanted: Wanted, outcome: Outcome, out: &mut Vec<u8>) -> Result<(), Memory>
    ensures { OnOk result (out.new.items ≡ out.old.items ++ unless_wanted wanted outcome) }
{
    if is_as_wanted(wanted, outcome) {
        return Ok(());
    }
    put_word(wanted_text(wanted), out)
}

fn put_returns(alloc: Global, returns: &[Value], out: &mut Vec<u8>) -> Result<(), Memory>
    ensures { OnOk result (out.new.items ≡ out.old.items ++ returns_text returns.now) }
{
    match returns {
        [] => Ok(()),
        [_, ..] => {
            out.extend_from_slice(b" returns ")?;
            put_values(alloc, returns, out)
        }
    }
}

fn put_trace(alloc: Global, trace: &Trace, out: &mut Vec<u8>) -> Result<(), Memory>
    ensures { OnOk result (out.new.items ≡ out.old.items ++ trace_text trace.now) }
{
    out.extend_from_slice(b" makes ")?;
    put_objects(alloc, trace.outputs.as_slice(), out)?;
    put_returns(alloc, trace.returns.as_slice(), out)
}

// What the last of the traces made, which is the one of the method that is called.
fn put_made(alloc: Global, made: &[Trace], out: &mut Vec<u8>) -> Result<(), Memory>
    ensures { OnOk result (out.new.items ≡ out.old.items ++ made_text made.now) }
{
    match made {
        [] => Ok(()),
        [last] => put_trace(alloc, last, out),
        [_, others @ ..] => put_made(alloc, others, out),
    }
}

fn put_asked(
    alloc: Global,
    asked: &Asked,
    outcome: Outcome,
    made: &[Trace],
    out: &mut Vec<u8>,
) -> Result<(), Memory>
    ensures { OnOk result
        (out.new.items ≡ out.old.items ++ asked_text asked.now outcome made.now) }
{
    match asked {
        Asked::Shown => put_made(alloc, made, out),
        Asked::Made(wanted) => put_unless_wanted(*wanted, outcome, out),
        Asked::Given(_, _, wanted) => put_unless_wanted(*wanted, outcome, out),
    }
}

/// The line of the case with this number, of the contract of this text.
pub fn put_case(
    alloc: Global,
    text: &[u8],
    number: u64,
    asked: &Asked,
    outcome: Outcome,
    made: &[Trace],
    out: &mut Vec<u8>,
) -> Result<(), Memory>
    ensures { OnOk result (out.new.items
        ≡ out.old.items ++ case_text text.now number asked.now outcome made.now) }
{
    out.extend_from_slice(b"case ")?;
    put_number(alloc, number, out)?;
    put_outcome(alloc, text, outcome, out)?;
    put_asked(alloc, asked, outcome, made, out)?;
    out.extend_from_slice(b"\n")?;
    Ok(())
}

fn cause_word(cause: Cause) -> &'static str
    ensures { result.now ≡ cause_word cause }
{
    match cause {
        Cause::Syntax => "syntax",
        Cause::Method => "method",
        Cause::Object => "object",
    }
}

/// The line of a refusal.
pub fn refused_text(alloc: Global, refused: Refused) -> Result<String, AllocError>
    ensures { IfOk result (λ text. string_bytes text ≡ refused_text refused) }
{
    format!(in alloc; "refused {} {}\n", refused.line, cause_word(refused.cause))
}

/// The line of a text that is too long, by the position of the first byte that is too much.
pub fn limit_text(alloc: Global, position: Position) -> Result<String, AllocError>
    ensures { IfOk result (λ text. string_bytes text ≡ limit_text position) }
{
    format!(in alloc; "limit {}\n", position.line)
}

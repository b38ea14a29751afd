//! What is told of a transaction.
ghost use Rattle.std.specs.Prelude.{◌≡◌, ◌≤◌, ◌++◌, length, OnOk, IfOk, string_bytes};
ghost use Rattle.std.specs.List.{AllByRecursion};
ghost use Rattle.cs_tx_types.specs.declared.limits.TheConstants.{MOST_TRACES, MOST_TRACE_OBJECTS};
ghost use Rattle.cs_tx_types.specs.Transaction.{TraceFits, TxFits};
ghost use Rattle.cs_tx_types.specs.Session.{session_encoding};
ghost use Rattle.cs_transact.specs.Lines.{hex_line};
ghost use Rattle.cs_transact.specs.Telling.{messages_text, names_text, outputs_text, bare_session, session_text, transaction_text};

use crate::formed::bare;
use crate::lines::{hex_line, message_line, output_line};
use cs_base::Memory;
use cs_native::{NativeView, message};
use cs_tx::{output_name, tx_digest};
use cs_tx_types::{Trace, Tx};
use cs_tx_value::{Digest, Encoded, Object};
use std::alloc::Global;

// The message of each trace.
fn put_messages(alloc: Global, traces: &[Trace], out: &mut Vec<u8>) -> Result<(), Memory>
    requires { AllByRecursion TraceFits traces.now }
    ensures { OnOk result (out.new.items ≡ out.old.items ++ messages_text 0 traces.now) }
{
    for (number, trace) in traces.iter().enumerate() {
        let message = message(&NativeView::new(trace));
        let line = message_line(alloc, number, &message)?;
        out.extend_from_slice(line.as_bytes())?;
    }
    Ok(())
}

// The names of the outputs of the trace with this number.
fn put_names(
    alloc: Global,
    digest: &Digest,
    number: u16,
    outputs: &[Object],
    out: &mut Vec<u8>,
) -> Result<(), Memory>
    requires { length outputs.now ≤ MOST_TRACE_OBJECTS }
    ensures { OnOk result
        (out.new.items ≡ out.old.items ++ names_text digest.now number 0 outputs.now) }
{
    for place in 0..outputs.len() {
        let name = output_name(digest, number, place as u16);
        let line = output_line(alloc, number, place as u16, &name)?;
        out.extend_from_slice(line.as_bytes())?;
    }
    Ok(())
}

// The names of the outputs of all traces.
fn put_outputs(
    alloc: Global,
    digest: &Digest,
    traces: &[Trace],
    out: &mut Vec<u8>,
) -> Result<(), Memory>
    requires few { length traces.now ≤ MOST_TRACES }
    requires fit { AllByRecursion TraceFits traces.now }
    ensures { OnOk result
        (out.new.items ≡ out.old.items ++ outputs_text digest.now 0 traces.now) }
{
    for (number, trace) in traces.iter().enumerate() {
        put_names(alloc, digest, number as u16, trace.outputs.as_slice(), out)?;
    }
    Ok(())
}

// The encoding of the session of this number, without dummies.
fn session_bytes(alloc: Global, number: u64, tx: &Tx) -> Result<Vec<u8>, Memory>
    requires { TxFits tx.now }
    ensures { IfOk result (λ bytes. bytes.items ≡ session_encoding (bare_session number tx.now)) }
{
    let session = bare(alloc, tx.copy(alloc)?, number);
    session.to_bytes(alloc)
}

fn put_session(alloc: Global, number: Option<u64>, tx: &Tx, out: &mut Vec<u8>) -> Result<(), Memory>
    requires { TxFits tx.now }
    ensures { OnOk result (out.new.items ≡ out.old.items ++ session_text number tx.now) }
{
    let Some(number) = number else {
        return Ok(());
    };
    let bytes = session_bytes(alloc, number, tx)?;
    put_hex(alloc, "session", &bytes, out)
}

fn put_hex(alloc: Global, word: &str, bytes: &[u8], out: &mut Vec<u8>) -> Result<(), Memory>
    ensures { OnOk result (out.new.items ≡ out.old.items ++ hex_line word.now bytes.now) }
{
    let line = hex_line(alloc, word, bytes)?;
    out.extend_from_slice(line.as_bytes())?;
    Ok(())
}

/// Appends what is told of a transaction; of the session of a number too, where one is given.
pub fn put_transaction(
    alloc: Global,
    number: Option<u64>,
    tx: &Tx,
    out: &mut Vec<u8>,
) -> Result<(), Memory>
    requires { TxFits tx.now }
    ensures { OnOk result (out.new.items ≡ out.old.items ++ transaction_text number tx.now) }
{
    let digest = tx_digest(alloc, tx)?;
    put_hex(alloc, "transaction", &tx.to_bytes(alloc)?, out)?;
    put_hex(alloc, "digest", digest.as_slice(), out)?;
    put_messages(alloc, tx.traces.as_slice(), out)?;
    put_outputs(alloc, &digest, tx.traces.as_slice(), out)?;
    put_session(alloc, number, tx, out)
}

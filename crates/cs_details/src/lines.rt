//! What is printed of a session that is submitted, and of a transaction that is accepted.
ghost use Rattle.std.specs.Prelude.{◌≡◌, ◌≤◌, ◌++◌, ℕ, length, IfOk, OnOk, string_bytes};
ghost use Rattle.std.specs.List.{AllByRecursion};
ghost use Rattle.cs_tx_value.specs.Object.{ObjectFits};
ghost use Rattle.cs_tx_types.specs.declared.limits.TheConstants.{MOST_TRACES, MOST_TRACE_OBJECTS};
ghost use Rattle.cs_tx_types.specs.Session.{SessionFits};
ghost use Rattle.cs_tx_types.specs.Transaction.{TraceFits, TxFits};
ghost use Rattle.cs_tx.specs.Digest.{name_of_output};
ghost use Rattle.cs_tx.specs.Lines.{tx_line};
ghost use Rattle.cs_details.specs.Lines.{session_line, named_line, output_lines, trace_lines, tx_lines};

use cs_base::{Config, Key, Memory, print_bytes, shard_of};
use cs_tx::{output_name, tx_digest};
use cs_tx_types::{Session, Trace, Tx};
use cs_tx_value::{Digest, Encoded, Object};
use std::alloc::Global;

/// The line of a session: its encoding, by which it can be asked for again.
pub fn session_line(alloc: Global, session: &Session) -> Result<String, Memory>
    requires { SessionFits session.now }
    ensures { IfOk result (λ line. string_bytes line ≡ session_line session.now) }
{
    let bytes = session.to_bytes(alloc)?;
    let text = print_bytes(alloc, &bytes)?;
    Ok(format!(in alloc; "session {text}\n")?)
}

// The line of a transaction with this digest.
fn tx_line(alloc: Global, digest: &Digest) -> Result<String, Memory>
    ensures { IfOk result (λ line. string_bytes line ≡ tx_line digest.now) }
{
    let text = print_bytes(alloc, digest.as_slice())?;
    Ok(format!(in alloc; "tx {text}\n")?)
}

// The line of an output of this name.
fn named_line(
    alloc: Global,
    config: &Config,
    trace: u16,
    place: u16,
    name: &Digest,
    object: &Object,
) -> Result<String, Memory>
    requires { ObjectFits object.now }
    ensures { IfOk result (λ line.
        string_bytes line ≡ named_line config.now trace place name.now object.now) }
{
    let shard = shard_of(config, &Key::Object(*name));
    let key = print_bytes(alloc, name.as_slice())?;
    let bytes = object.to_bytes(alloc)?;
    let object = print_bytes(alloc, &bytes)?;
    Ok(format!(in alloc; "output {trace} {place} {key} {shard} {object}\n")?)
}

// Appends the lines of the outputs of one trace.
fn push_outputs(
    alloc: Global,
    config: &Config,
    digest: &Digest,
    trace: u16,
    outputs: &[Object],
    text: &mut String,
) -> Result<(), Memory>
    requires few { length outputs.now ≤ MOST_TRACE_OBJECTS }
    requires fit { AllByRecursion ObjectFits outputs.now }
    ensures { OnOk result (string_bytes text.new
        ≡ string_bytes text.old ++ output_lines config.now digest.now trace 0 outputs.now) }
{
    for i in 0..outputs.len() {
        let place = i as u16;
        let name = output_name(digest, trace, place);
        let line = named_line(alloc, config, trace, place, &name, &outputs[i])?;
        text.push_str(&line)?;
    }
    Ok(())
}

// Appends those of all traces.
fn push_traces(
    alloc: Global,
    config: &Config,
    digest: &Digest,
    traces: &[Trace],
    text: &mut String,
) -> Result<(), Memory>
    requires few { length traces.now ≤ MOST_TRACES }
    requires fit { AllByRecursion TraceFits traces.now }
    ensures { OnOk result (string_bytes text.new
        ≡ string_bytes text.old ++ trace_lines config.now digest.now 0 traces.now) }
{
    for i in 0..traces.len() {
        let outputs = traces[i].outputs.as_slice();
        push_outputs(alloc, config, digest, i as u16, outputs, text)?;
    }
    Ok(())
}

/// The lines of a transaction: its digest, and then its outputs, which are what a payee is handed.
pub fn tx_lines(alloc: Global, config: &Config, tx: &Tx) -> Result<String, Memory>
    requires { TxFits tx.now }
    ensures { IfOk result (λ lines. string_bytes lines ≡ tx_lines config.now tx.now) }
{
    let digest = tx_digest(alloc, tx)?;
    let mut text = tx_line(alloc, &digest)?;
    push_traces(alloc, config, &digest, tx.traces.as_slice(), &mut text)?;
    Ok(text)
}

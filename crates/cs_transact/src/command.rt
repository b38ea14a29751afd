//! The command `transaction`.
ghost use Rattle.std.specs.Prelude.{◌≡◌, ◌≢◌, ◌≤◌, length, IfOk};
ghost use Rattle.cs_base.specs.declared.limits.TheConstants.{MOST_SCHEDULE};
ghost use Rattle.cs_base.specs.Outside.{HasCause};
ghost use Rattle.cs_io.specs.Outside.{Faultless, Faulty};
ghost use Rattle.cs_tx_types.specs.Transaction.{TxFits};
ghost use Rattle.cs_transact.specs.Lines.{refused_line};
ghost use Rattle.cs_transact.specs.Telling.{transaction_text};
ghost use Rattle.cs_transact.specs.Command.{answer_told, said_answer, long_answer, TransactionAnswer, TransactionTold, TransactionRuns, TransactionWhole};

use crate::lines::refused_line;
use crate::reading::read_transaction;
use crate::refusal::{Refusal, TextError};
use crate::telling::put_transaction;
use cs_base::{MOST_SCHEDULE, Memory, ReadError, Sink, Source, print, read_text};
use cs_io::closing;
use cs_tx_types::Tx;
use std::alloc::Global;

/// What is answered to a text: the status that a program ends with, and what it prints.
#[derive(Drop)]
pub struct Told {
    pub status: u8,
    pub printed: Vec<u8>,
}

fn tell_made(alloc: Global, number: Option<u64>, tx: &Tx) -> Result<Told, Memory>
    requires { TxFits tx.now }
    ensures { IfOk result (λ told. answer_told told ≡ said_answer number (Ok tx.now)) }
{
    let mut printed = Vec::new(alloc);
    put_transaction(alloc, number, tx, &mut printed)?;
    Ok(Told { status: 0, printed })
}

fn tell_refusal(alloc: Global, number: Option<u64>, refusal: Refusal) -> Result<Told, Memory>
    ensures { IfOk result (λ told. answer_told told ≡ said_answer number (Err refusal)) }
{
    let line = refused_line(alloc, refusal)?;
    Ok(Told {
        status: 3,
        printed: line.into_bytes(),
    })
}

fn tell_long(alloc: Global) -> Result<Told, Memory>
    ensures { IfOk result (λ told. answer_told told ≡ long_answer) }
{
    let printed = Vec::from_slice(alloc, b"limit text\n")?;
    Ok(Told {
        status: 13,
        printed,
    })
}

// What is told of a text that isn't too long.
fn tell_said(alloc: Global, number: Option<u64>, text: &[u8]) -> Result<Told, Memory>
    requires { length text.now ≤ MOST_SCHEDULE }
    ensures { IfOk result (λ told. TransactionAnswer number text.now (answer_told told)) }
{
    match read_transaction(alloc, text) {
        Ok(tx) => tell_made(alloc, number, &tx),
        Err(TextError::Refused(refusal)) => tell_refusal(alloc, number, refusal),
        Err(TextError::Memory) => Err(Memory),
    }
}

/// What is told of the transaction that a text says, and of its session of a number, where one is
/// given; or of the first cause for which the text says none.
pub fn tell_text(alloc: Global, number: Option<u64>, text: &[u8]) -> Result<Told, Memory>
    ensures { IfOk result (λ told. TransactionAnswer number text.now (answer_told told)) }
{
    if text.len() > MOST_SCHEDULE {
        tell_long(alloc)
    } else {
        tell_said(alloc, number, text)
    }
}

/// Tells what the transaction in the text of the source is, and answers the status that a program
/// ends with: 0; 3 where the text says none and 13 where it is too long, 5 where the source fails and
/// 6 where the sink does, 8 for want of memory.
pub fn run_transaction<S: Source, K: Sink>(
    alloc: Global,
    number: Option<u64>,
    input: &mut S,
    out: &mut K,
) -> u8
    ensures runs { TransactionRuns number (Faulty S.faults input.old input.new)
        (S.left input.old) (S.left input.new) (K.written out.old) (K.written out.new) result }
    ensures whole { Faultless S.faults input.old input.new → Faultless K.faults out.old out.new
        → TransactionWhole number
        (S.left input.old) (K.written out.old) (K.written out.new) result }
    ensures only { result ≢ 2 }
    ensures read_fault { HasCause (S.faults input.old) (S.faults input.new) (result ≡ 5) }
    ensures write_fault { HasCause (K.faults out.old) (K.faults out.new) (result ≡ 6) }
{
    match read_text(alloc, MOST_SCHEDULE, input) {
        Ok(text) => tell_read(alloc, number, &text, out),
        Err(ReadError::Failed) => closing(print(out, b"read fault\n"), 5),
        Err(ReadError::Memory) => 8,
    }
}

// Tells of a text that was read.
fn tell_read<K: Sink>(alloc: Global, number: Option<u64>, text: &[u8], out: &mut K) -> u8
    ensures told { TransactionTold number text.now (K.written out.old) (K.written out.new) result }
    ensures only { (result ≢ 2) × (result ≢ 5) }
    ensures write_fault { HasCause (K.faults out.old) (K.faults out.new) (result ≡ 6) }
{
    match tell_text(alloc, number, text) {
        Ok(told) => closing(print(out, &told.printed), told.status),
        Err(_) => 8,
    }
}

//! What is answered to a call.
ghost use Rattle.std.specs.Prelude.{◌≡◌, IfOk};
ghost use Rattle.cs_tx_types.specs.Transaction.{TxFits};
ghost use Rattle.cs_proc.specs.Calling.{ran};
ghost use Rattle.cs_proc.specs.Answering.{first_no, AnswersCall};

use crate::call::Call;
use crate::error::ProcError;
use crate::running::run;
use cs_approve::Book;
use cs_base::Memory;
use cs_tx_types::Tx;
use cs_tx_value::Encoded;
use std::alloc::Global;

/// The first trace that the book doesn't approve.
fn first_no(alloc: Global, book: &Book, tx: &Tx) -> Result<Option<usize>, Memory>
    requires { TxFits tx.now }
    ensures { IfOk result (λ place. place ≡ first_no book.now tx.now.traces) }
{
    let traces = tx.traces.as_slice();
    for (place, trace) in traces.iter().enumerate() {
        if !book.approves_trace(alloc, traces, trace)? {
            return Ok(Some(place));
        }
    }
    Ok(None)
}

/// Runs the method that is called. What it makes is within the limits of a transaction, and
/// approved by the book; else the first cause is told why there is no such transaction.
#[tactic(auto, using(crate::proofs::Approving::all_approved))]
pub fn run_method(alloc: Global, book: &Book, call: &Call) -> Result<Tx, ProcError>
    ensures { AnswersCall book.now (ran book.now call.now) result }
{
    let tx = Tx {
        traces: run(alloc, book, call)?,
    };
    if !tx.fits() {
        return Err(ProcError::TooLarge);
    }
    match first_no(alloc, book, &tx)? {
        Some(place) => Err(ProcError::CheckerNo(place)),
        None => Ok(tx),
    }
}

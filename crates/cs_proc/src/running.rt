//! Running the method that is called.
ghost use Rattle.std.specs.Prelude.{◌≡◌, ◌<◌, ℕ, Some};
ghost use Rattle.cs_types_kinds.specs.Lookups.{method_number as number_of};
ghost use Rattle.cs_proc_parts.specs.Courses.{Went};
ghost use Rattle.cs_proc.specs.Calling.{refusal_of, call_ran_of, method_ran, numbered_ran, token_ran, ran};
ghost use Rattle.cs_proc.specs.Answering.{RunAnswers, TellsRun};

use crate::call::Call;
use crate::error::ProcError;
use crate::run_procedure;
use crate::token::transfer;
use cs_approve::Book;
use cs_base::Sequence;
use cs_eval::Scene;
use cs_eval_values::{LentView, Objects, Steps};
use cs_lang::{ContractTree, Method};
use cs_proc_parts::{Ending, Halt, Keyed, Progress};
use cs_tx::id_of_token;
use cs_tx_types::Trace;
use cs_tx_value::{Value, copy_each};
use cs_types_kinds::method_number;
use std::alloc::Global;
use std::marker::Brand;
use std::sync::ledger::{Blank, Ledger};

/// The refusal of a call whose run ends so.
fn refusal_of(ending: Ending) -> ProcError
    ensures { result ≡ refusal_of ending }
{
    match ending {
        Ending::Trap(_, place) => ProcError::Trap(place),
        Ending::Filled(place) => ProcError::Trap(place),
        Ending::Unfilled(place) => ProcError::Trap(place),
        Ending::Missing => ProcError::BadArgs,
    }
}

/// The traces of a run that is through, where no object is left over.
fn traces_of(progress: Progress<'_>) -> Result<Sequence<Trace>, ProcError>
    ensures { (n : ℕ) → RunAnswers (call_ran_of (Went progress.entry n)) result }
{
    if progress.is_used_up() {
        return Ok(progress.traces);
    }
    Err(ProcError::BadArgs)
}

/// What is told of a run: its traces, or why there are none.
fn told(run: Result<Progress<'_>, Halt>) -> Result<Sequence<Trace>, ProcError>
    ensures { TellsRun run.entry result }
{
    match run {
        Ok(progress) => traces_of(progress),
        Err(Halt::End(ending)) => Err(refusal_of(ending)),
        Err(Halt::Memory) => Err(ProcError::Memory),
    }
}

/// Runs a method with so many others above it, where this counts what it spends.
fn run_counted<L: Ledger>(
    alloc: Global,
    contract: &ContractTree,
    number: usize,
    method: &Method,
    call: &Call,
    blank: Blank,
) -> Result<Sequence<Trace>, ProcError>
    requires name { blank.name ≡ L.name }
    requires parts { blank.parts ≡ L.parts }
    requires some { 0 < L.parts }
    ensures { RunAnswers (method_ran contract.now call.now number (Some method.now)) result }
{
    let view = LentView::new(
        &call.contract,
        Objects::alone(&[]),
        Objects::alone(&[]),
        &[],
        Objects::alone(&[]),
        &[],
        Vec::new(alloc),
    );
    let scene = Scene {
        alloc,
        contract,
        view: &view,
    };
    let arguments = copy_each(alloc, &call.args)?;
    let progress = Progress {
        inputs: Keyed::new(call.inputs.as_slice()),
        reads: Keyed::new(call.reads.as_slice()),
        traces: Sequence::new(alloc),
    };
    let mut steps: Steps<L> = Steps::new(blank);
    told(run_procedure(&scene, number, method, arguments, progress, &mut steps))
}

/// The same; nobody asks what the run spends.
fn run_method_at(
    alloc: Global,
    contract: &ContractTree,
    number: usize,
    method: &Method,
    call: &Call,
) -> Result<Sequence<Trace>, ProcError>
    ensures { RunAnswers (method_ran contract.now call.now number (Some method.now)) result }
{
    run_counted::<Brand>(alloc, contract, number, method, call, Blank::new(1))
}

/// The traces of the method of this contract that is called and of those that it calls, whatever
/// the checks say of them.
pub fn run_in(
    alloc: Global,
    contract: &ContractTree,
    call: &Call,
) -> Result<Sequence<Trace>, ProcError>
    ensures { RunAnswers (numbered_ran contract.now call.now
        (number_of call.now.method contract.now.methods)) result }
{
    let methods = contract.methods.as_slice();
    let Some(number) = method_number(methods, call.method.as_slice()) else {
        return Err(ProcError::NoMethod);
    };
    match methods.get(number) {
        Some(method) => run_method_at(alloc, contract, number, method, call),
        None => Err(ProcError::NoMethod),
    }
}

/// Runs a method of `token`.
fn run_token(alloc: Global, call: &Call) -> Result<Sequence<Trace>, ProcError>
    ensures { RunAnswers (token_ran call.now) result }
{
    if call.method.as_slice() != b"transfer".as_slice() {
        return Err(ProcError::NoMethod);
    }
    match transfer(alloc, call)? {
        Some(traces) => Ok(traces),
        None => Err(ProcError::BadArgs),
    }
}

/// The traces of the method that is called and of those that it calls.
pub fn run(alloc: Global, book: &Book, call: &Call) -> Result<Sequence<Trace>, ProcError>
    ensures { RunAnswers (ran book.now call.now) result }
{
    if call.contract == id_of_token() {
        return run_token(alloc, call);
    }
    match book.contract(&call.contract) {
        Some(checked) => run_in(alloc, checked.contract().tree(), call),
        None => Err(ProcError::NoMethod),
    }
}

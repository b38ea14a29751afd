//! Judging a call.
ghost use Rattle.std.specs.Prelude.{◌≡◌, Some, option_copied};
ghost use Rattle.std.specs.List.{list_all};
ghost use Rattle.cs_eval_values.specs.Filling.{values_fit};
ghost use Rattle.cs_judge.specs.Faults.{fewest, is_int, fits_method, fault_behind, fault_in_method, method_of, fault_in_contract, fault_of_token, fault_of_called, fault_of_call};

use crate::fault::CallFault;
use cs_approve::Book;
use cs_config::CallFile;
use cs_eval_values::has_kind;
use cs_lang::{ContractTree, Field, Method, Slot};
use cs_tx::id_of_token;
use cs_tx_value::Value;
use cs_types_kinds::{INT, kind_of, method_number};

// Whether there are as many arguments as fields, each of the declared kind.
fn args_fit(fields: &[Field], args: &[Value]) -> bool
    ensures { result ≡ values_fit fields.now args.now }
{
    if fields.len() != args.len() {
        return false;
    }
    for i in 0..fields.len() {
        if !has_kind(kind_of(&fields[i].kind), &args[i]) {
            return false;
        }
    }
    true
}

// How many objects these slots take at least.
fn fewest(slots: &[Slot]) -> usize
    ensures { result ≡ fewest slots.now }
{
    let mut count = 0;
    for slot in slots {
        count += usize::from(!slot.many);
    }
    count
}

// Whether the method takes these arguments, and no more objects than there are.
fn fits_method(method: &Method, call: &CallFile) -> bool
    ensures { result ≡ fits_method method.now call.now }
{
    args_fit(method.takes.as_slice(), call.args.as_slice())
        && fewest(method.consumes.as_slice()) <= call.inputs.len()
        && fewest(method.reads.as_slice()) <= call.reads.len()
}

// The first fault of a call whose method is there, and takes its arguments or doesn't.
fn fault_behind(fits: bool, call: &CallFile) -> Option<CallFault>
    ensures { result ≡ fault_behind fits call.now }
{
    if !fits {
        return Some(CallFault::Args);
    }
    if call.inputs.is_empty() {
        return Some(CallFault::Inputs);
    }
    None
}

// The method of this call.
fn method_of<'a>(contract: &'a ContractTree, call: &CallFile) -> Option<&'a Method>
    ensures { option_copied result ≡ method_of contract.now call.now }
{
    let methods = contract.methods.as_slice();
    let number = method_number(methods, call.method.as_str().as_bytes())?;
    methods.get(number)
}

// The first fault of a call of this contract.
fn fault_in_contract(contract: &ContractTree, call: &CallFile) -> Option<CallFault>
    ensures { result ≡ fault_in_method call.now (method_of contract.now call.now) }
{
    match method_of(contract, call) {
        Some(method) => fault_behind(fits_method(method, call), call),
        None => Some(CallFault::Method),
    }
}

fn is_int(value: &Value) -> bool
    ensures { result ≡ is_int value.now }
{
    has_kind(Some(INT), value)
}

fn are_ints(args: &[Value]) -> bool
    ensures { result ≡ list_all is_int args.now }
{
    for value in args {
        if !is_int(value) {
            return false;
        }
    }
    true
}

// The first fault of a call of `token`.
fn fault_of_token(call: &CallFile) -> Option<CallFault>
    ensures { result ≡ fault_of_token call.now }
{
    if call.method.as_str() != "transfer" {
        return Some(CallFault::Method);
    }
    fault_behind(are_ints(call.args.as_slice()), call)
}

fn fault_of_called(book: &Book, call: &CallFile) -> Option<CallFault>
    ensures { result ≡ fault_of_called book.now call.now }
{
    if call.contract == id_of_token() {
        return fault_of_token(call);
    }
    match book.contract(&call.contract) {
        Some(checked) => fault_in_contract(checked.contract().tree(), call),
        None => Some(CallFault::Method),
    }
}

/// The first fault of a call, by its file and these contracts alone. A transaction that stands in its
/// place has none.
pub fn fault_of_call(book: &Book, call: &CallFile) -> Option<CallFault>
    ensures { result ≡ fault_of_call book.now call.now }
{
    match &call.transaction {
        Some(_) => None,
        None => fault_of_called(book, call),
    }
}

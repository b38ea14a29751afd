//! The rule `sum`.
ghost use Rattle.std.specs.Prelude.{◌≡◌, ◌≤◌, ◌<◌, ◌^◌, length, map, IfSome};
ghost use Rattle.std.specs.List.{list_all};
ghost use Rattle.cs_tx_types.specs.declared.limits.TheConstants.{MOST_TRACE_OBJECTS};
ghost use Rattle.cs_native.specs.Sum.{purse_of, amount_in, sum_of_kind, is_conserved, is_sum};

use crate::rule::Rule;
use crate::values::{amount, int_of};
use crate::view::NativeView;
use cs_tx_value::{Digest, Object};
use sha2::{Digest as Hasher, Sha256};

/// Purses of several kinds are moved, and of no kind is there more or less than before.
#[derive(Clone, Copy, Debug, PartialEq, Eq)]
pub struct Sum;

impl Rule for Sum {
    ghost use Rattle.cs_native.specs.Sum.{sum_id, is_sum};

    ghost rule_id = { sum_id };

    ghost is_met = { is_sum };

    fn id(&self) -> Digest {
        Sha256::digest(b"native:sum")
    }

    fn check(&self, view: &NativeView<'_>) -> bool {
        is_sum(view)
    }
}

/// So much of a kind.
#[derive(Clone, Copy)]
struct Purse {
    amount: u64,
    kind: i64,
}

fn purse_of(object: &Object) -> Option<Purse>
    ensures purse { result ≡ purse_of object.now }
    ensures small { IfSome result (λ purse. purse.amount < 2 ^ 63) }
{
    match object.values.as_slice() {
        [first, second] if object.type_name.as_slice() == b"purse".as_slice() => {
            let amount = amount(first)?;
            let kind = int_of(second)?;
            Some(Purse { amount, kind })
        }
        _ => None,
    }
}

// What an object has of a kind.
fn amount_in(kind: i64, object: &Object) -> u64
    ensures amount { result ≡ amount_in kind (purse_of object.now) }
    ensures small { result < 2 ^ 63 }
{
    match purse_of(object) {
        Some(purse) if purse.kind == kind => purse.amount,
        _ => 0,
    }
}

// What is used up of a kind.
fn spent(kind: i64, inputs: &[(Digest, Object)]) -> u128
    requires { length inputs.now ≤ MOST_TRACE_OBJECTS }
    ensures { result ≡ sum_of_kind kind (map (λ item. item.1) inputs.now) }
{
    let mut sum = 0;
    for item in inputs {
        sum += u128::from(amount_in(kind, &item.1));
    }
    sum
}

// What is made of a kind.
fn made(kind: i64, outputs: &[Object]) -> u128
    requires { length outputs.now ≤ MOST_TRACE_OBJECTS }
    ensures { result ≡ sum_of_kind kind outputs.now }
{
    let mut sum = 0;
    for object in outputs {
        sum += u128::from(amount_in(kind, object));
    }
    sum
}

// Whether an object is a purse of whose kind as much is made as is used up.
fn is_conserved(inputs: &[(Digest, Object)], outputs: &[Object], object: &Object) -> bool
    requires inputs { length inputs.now ≤ MOST_TRACE_OBJECTS }
    requires outputs { length outputs.now ≤ MOST_TRACE_OBJECTS }
    ensures { result ≡ is_conserved (map (λ item. item.1) inputs.now) outputs.now
        (purse_of object.now) }
{
    match purse_of(object) {
        Some(purse) => spent(purse.kind, inputs) == made(purse.kind, outputs),
        None => false,
    }
}

// Whether each input is.
fn are_inputs_conserved(inputs: &[(Digest, Object)], outputs: &[Object]) -> bool
    requires inputs { length inputs.now ≤ MOST_TRACE_OBJECTS }
    requires outputs { length outputs.now ≤ MOST_TRACE_OBJECTS }
    ensures { let objects = map (λ item. item.1) inputs.now in
        result ≡ list_all (λ object. is_conserved objects outputs.now (purse_of object)) objects }
{
    for item in inputs {
        if !is_conserved(inputs, outputs, &item.1) {
            return false;
        }
    }
    true
}

// Whether each output is.
fn are_outputs_conserved(inputs: &[(Digest, Object)], outputs: &[Object]) -> bool
    requires inputs { length inputs.now ≤ MOST_TRACE_OBJECTS }
    requires outputs { length outputs.now ≤ MOST_TRACE_OBJECTS }
    ensures { let objects = map (λ item. item.1) inputs.now in
        result ≡ list_all (λ object. is_conserved objects outputs.now (purse_of object))
        outputs.now }
{
    for object in outputs {
        if !is_conserved(inputs, outputs, object) {
            return false;
        }
    }
    true
}

// Whether a trace is a move of `sum`.
fn is_sum(view: &NativeView<'_>) -> bool
    ensures { result ≡ is_sum view.now }
{
    let inputs = view.inputs();
    let outputs = view.outputs();
    view.method() == b"move".as_slice()
        && view.parameters().len() == 0
        && view.returns().len() == 0
        && are_inputs_conserved(inputs, outputs)
        && are_outputs_conserved(inputs, outputs)
}

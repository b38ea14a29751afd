//! The rule `hashlock`.
ghost use Rattle.std.specs.Prelude.{◌≡◌};
ghost use Rattle.cs_tx_value.specs.declared.value.Value.{out-Value};
ghost use Rattle.cs_native.specs.Values.{bytes_of_layer};
ghost use Rattle.cs_native.specs.Hashlock.{int_shown, is_locked, holds_shown, is_step, is_step_with, is_only_step, is_hashlock};

use crate::rule::Rule;
use crate::values::int_of;
use crate::view::NativeView;
use cs_tx_value::{Digest, Object, Value};
use sha2::{Digest as Hasher, Sha256};

/// A value is locked under a hash, and may be claimed by whoever shows what hashes to it.
#[derive(Clone, Copy, Debug, PartialEq, Eq)]
pub struct Hashlock;

impl Rule for Hashlock {
    ghost use Rattle.cs_native.specs.Hashlock.{hashlock_id, is_hashlock};

    ghost rule_id = { hashlock_id };

    ghost is_met = { is_hashlock };

    fn id(&self) -> Digest {
        Sha256::digest(b"native:hashlock")
    }

    fn check(&self, view: &NativeView<'_>) -> bool {
        is_hashlock(view)
    }
}

// The int that an `open` object shows.
fn int_shown(object: &Object) -> Option<i64>
    ensures { result ≡ int_shown object.now }
{
    match object.values.as_slice() {
        [value] if object.type_name.as_slice() == b"open".as_slice() => int_of(value),
        _ => None,
    }
}

// Whether a `lock` object holds this int under this hash.
fn is_locked(hash: &[u8], number: i64, object: &Object) -> bool
    ensures { result ≡ is_locked hash.now number object.now }
{
    match object.values.as_slice() {
        [Value::Bytes(bytes), Value::Int(held)] => {
            object.type_name.as_slice() == b"lock".as_slice()
                && bytes.as_slice() == hash
                && *held == number
        }
        _ => false,
    }
}

// Whether what the one object shows is what the other one holds under this hash.
fn holds_shown(hash: &[u8], shown: &Object, locked: &Object) -> bool
    ensures { result ≡ holds_shown hash.now (int_shown shown.now) locked.now }
{
    match int_shown(shown) {
        Some(number) => is_locked(hash, number, locked),
        None => false,
    }
}

// Whether a call with these bytes makes the one object of the other.
fn is_step(method: &[u8], given: &[u8], input: &Object, output: &Object) -> bool
    ensures { result ≡ is_step method.now given.now input.now output.now }
{
    if method == b"lock".as_slice() {
        given.len() == 32 && holds_shown(given, input, output)
    } else {
        method == b"claim".as_slice() && holds_shown(&Sha256::digest(given), output, input)
    }
}

fn is_step_with(method: &[u8], given: &Value, input: &Object, output: &Object) -> bool
    ensures { result ≡ is_step_with method.now (bytes_of_layer (out-Value given.now))
        input.now output.now }
{
    match given {
        Value::Bytes(bytes) => is_step(method, bytes.as_slice(), input, output),
        _ => false,
    }
}

// Whether the trace has one parameter, one input and one output, and is a step with them.
fn is_only_step(view: &NativeView<'_>) -> bool
    ensures { result ≡ is_only_step view.now }
{
    let [given] = view.parameters() else {
        return false;
    };
    let [input] = view.inputs() else {
        return false;
    };
    let [output] = view.outputs() else {
        return false;
    };
    is_step_with(view.method(), given, &input.1, output)
}

// Whether a trace is a step of `hashlock`.
fn is_hashlock(view: &NativeView<'_>) -> bool
    ensures { result ≡ is_hashlock view.now }
{
    view.references().len() == 0
        && view.returns().len() == 0
        && view.deps().len() == 0
        && is_only_step(view)
}

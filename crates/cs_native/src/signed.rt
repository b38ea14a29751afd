//! The rule `signed`.
ghost use Rattle.std.specs.Prelude.{◌≡◌, ◌≤◌, ◌<◌, ◌^◌, length, Some, is_some, IfSome};
ghost use Rattle.std.specs.List.{list_all};
ghost use Rattle.cs_tx_value.specs.declared.value.Value.{out-Value};
ghost use Rattle.cs_tx_types.specs.declared.limits.TheConstants.{MOST_TRACE_OBJECTS};
ghost use Rattle.cs_native.specs.Values.{bytes_of_layer};
ghost use Rattle.cs_native.specs.Hashlock.{is_only};
ghost use Rattle.cs_native.specs.Message.{message_of_trace};
ghost use Rattle.cs_native.specs.Signed.{text_of, key_with, note_of, amount_of_note, sum_of_notes, texts_of, verifies, is_divided, is_signed};

use crate::messages::message;
use crate::rule::Rule;
use crate::values::amount;
use crate::view::NativeView;
use cs_onetime::{Texts, verify_texts};
use cs_tx_value::{Digest, Object, Value};
use sha2::{Digest as Hasher, Sha256};

/// A note is divided by whoever signs the trace with the note's one-time key.
#[derive(Clone, Copy, Debug, PartialEq, Eq)]
pub struct Signed;

impl Rule for Signed {
    ghost use Rattle.cs_native.specs.Signed.{signed_id, is_signed};

    ghost rule_id = { signed_id };

    ghost is_met = { is_signed };

    fn id(&self) -> Digest {
        Sha256::digest(b"native:signed")
    }

    fn check(&self, view: &NativeView<'_>) -> bool {
        is_signed(view)
    }
}

/// So much, for whoever holds a one-time key.
#[derive(Clone, Copy)]
struct Note {
    amount: u64,
    key: Digest,
}

/// Values as the texts of a signature.
#[derive(Clone, Copy, Drop)]
struct Given<'a>(&'a [Value]);

impl Texts for Given<'_> {
    ghost use Rattle.cs_native.specs.Signed.{texts_of};

    ghost texts = { λ given. texts_of given.0.now };

    fn count(&self) -> usize {
        self.0.len()
    }

    fn text(&self, place: usize) -> &[u8] {
        match self.0.get(place) {
            Some(value) => text_of(value),
            None => &[],
        }
    }
}

// The bytes of a value; what isn't a text of bytes has none.
fn text_of(value: &Value) -> &[u8]
    ensures { result.now ≡ text_of (bytes_of_layer (out-Value value.now)) }
{
    match value {
        Value::Bytes(bytes) => bytes.as_slice(),
        _ => &[],
    }
}

fn key_of(bytes: &[u8]) -> Option<Digest>
    ensures { result ≡ key_with (Some bytes.now) }
{
    if bytes.len() != 32 {
        return None;
    }
    let mut key = [0; 32];
    key.copy_from_slice(bytes);
    Some(key)
}

fn key(value: &Value) -> Option<Digest>
    ensures { result ≡ key_with (bytes_of_layer (out-Value value.now)) }
{
    match value {
        Value::Bytes(bytes) => key_of(bytes.as_slice()),
        _ => None,
    }
}

fn note_of(object: &Object) -> Option<Note>
    ensures note { result ≡ note_of object.now }
    ensures small { IfSome result (λ note. note.amount < 2 ^ 63) }
{
    match object.values.as_slice() {
        [first, second] if object.type_name.as_slice() == b"note".as_slice() => {
            let key = key(first)?;
            let amount = amount(second)?;
            Some(Note { amount, key })
        }
        _ => None,
    }
}

// What an object holds as a note.
fn amount_of(object: &Object) -> u64
    ensures amount { result ≡ amount_of_note (note_of object.now) }
    ensures small { result < 2 ^ 63 }
{
    match note_of(object) {
        Some(note) => note.amount,
        None => 0,
    }
}

fn is_note(object: &Object) -> bool
    ensures { result ≡ is_some (note_of object.now) }
{
    note_of(object).is_some()
}

fn are_notes(objects: &[Object]) -> bool
    ensures { result ≡ list_all (λ object. is_some (note_of object)) objects.now }
{
    for object in objects {
        if !is_note(object) {
            return false;
        }
    }
    true
}

fn sum_of(objects: &[Object]) -> u128
    requires { length objects.now ≤ MOST_TRACE_OBJECTS }
    ensures { result ≡ sum_of_notes objects.now }
{
    let mut sum = 0;
    for object in objects {
        sum += u128::from(amount_of(object));
    }
    sum
}

// Whether the parameters are a signature of the trace under a key.
fn is_signed_under(key: &Digest, view: &NativeView<'_>) -> bool
    ensures { result ≡ verifies key.now (message_of_trace view.now) (texts_of view.now.parameters) }
{
    verify_texts(key, &message(view), &Given(view.parameters()))
}

// Whether the outputs divide a note, as whoever may do it has signed.
fn divides(view: &NativeView<'_>, note: &Note) -> bool
    ensures { result ≡ is_divided view.now (Some note.now) }
{
    are_notes(view.outputs())
        && sum_of(view.outputs()) == u128::from(note.amount)
        && is_signed_under(&note.key, view)
}

// Whether they divide what an object holds as a note.
fn is_divided(object: &Object, view: &NativeView<'_>) -> bool
    ensures { result ≡ is_divided view.now (note_of object.now) }
{
    match note_of(object) {
        Some(note) => divides(view, &note),
        None => false,
    }
}

// Whether the one object that is used up is divided.
fn is_only_divided(view: &NativeView<'_>) -> bool
    ensures { result ≡ is_only (λ input. is_divided view.now (note_of input.1)) view.now.inputs }
{
    let [input] = view.inputs() else {
        return false;
    };
    is_divided(&input.1, view)
}

// Whether a trace is a payment of `signed`.
fn is_signed(view: &NativeView<'_>) -> bool
    ensures { result ≡ is_signed view.now }
{
    view.method() == b"pay".as_slice()
        && view.references().len() == 0
        && view.returns().len() == 0
        && view.deps().len() == 0
        && view.outputs().len() >= 1
        && is_only_divided(view)
}

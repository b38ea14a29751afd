//! Payments that a wallet has signed.
use crate::rule_tests::{rules, says};
use cs_base::{Memory, Sequence};
use cs_native::{NativeView, RuledBook, message};
use cs_onetime::{Wallet, public_key};
use cs_tx::{Digest, Encoded, Name, Object, Trace, Value};
use sha2::{Digest as Hasher, Sha256};
use std::alloc::Global;
use std::process::Abort;
use std::test::Fail;

const SEED: Digest = [0; 32];

fn text(alloc: Global, content: &[u8]) -> Result<Value, Memory> {
    Ok(Value::Bytes(Sequence::from_vec(Vec::from_slice(alloc, content)?)))
}

fn name(alloc: Global, text: &str) -> Result<Name, Memory> {
    Ok(Name::from_vec(Vec::from_slice(alloc, text.as_bytes())?))
}

// A note under the key of a number.
fn note(alloc: Global, number: u64, amount: i64) -> Result<Object, Memory> {
    let mut values = Sequence::new(alloc);
    values.push(text(alloc, public_key(&SEED, number).as_slice())?)?;
    values.push(Value::Int(amount))?;
    Ok(Object {
        contract: Sha256::digest(b"native:signed"),
        type_name: name(alloc, "note")?,
        values,
    })
}

// Number 0 pays 9 to number 1 and as much as is said to number 2.
fn payment(alloc: Global, paid: i64, texts: &[Vec<u8>]) -> Result<Trace, Memory> {
    let mut inputs = Sequence::new(alloc);
    inputs.push(([7; 32], note(alloc, 0, 14)?))?;
    let mut outputs = Sequence::new(alloc);
    outputs.push(note(alloc, 1, 9)?)?;
    outputs.push(note(alloc, 2, paid)?)?;
    let mut parameters = Sequence::new(alloc);
    for content in texts {
        parameters.push(text(alloc, content.as_slice())?)?;
    }
    Ok(Trace {
        contract: Sha256::digest(b"native:signed"),
        method: name(alloc, "pay")?,
        inputs,
        references: Sequence::new(alloc),
        parameters,
        outputs,
        returns: Sequence::new(alloc),
        deps: Sequence::new(alloc),
    })
}

fn is_paid(
    rt: &impl Abort,
    book: &RuledBook,
    alloc: Global,
    paid: i64,
    texts: &[Vec<u8>],
) -> Result<bool, Memory> {
    let mut traces = Sequence::new(alloc);
    traces.push(payment(alloc, paid, texts)?)?;
    says(rt, book, alloc, traces)
}

// Turns a bit of the text of a place.
fn turn(texts: &mut Vec<Vec<u8>>, place: usize, bit: usize) {
    if let Some(content) = texts.get_mut(place) {
        if let Some(byte) = content.get_mut(bit / 8) {
            *byte ^= 1 << (bit % 8);
        }
    }
}

fn message_of(rt: &impl Abort, alloc: Global, paid: i64) -> Result<Digest, Memory> {
    let trace = payment(alloc, paid, &[])?;
    assert!(rt; trace.fits());
    Ok(message(&NativeView::new(&trace)))
}

#[test]
fn a_note_is_paid_by_the_signature_of_its_key_alone(rt: HostRuntime) -> Result<(), Fail> {
    let alloc = rt.alloc();
    let book = rules(alloc)?;
    let mut wallet = Wallet::new(alloc, SEED);
    let five = message_of(&rt, alloc, 5)?;
    let six = message_of(&rt, alloc, 6)?;
    let mine = wallet.sign(alloc, 0, &five)?;
    let others = wallet.sign(alloc, 1, &five)?;
    let more = Wallet::new(alloc, SEED).sign(alloc, 0, &six)?;
    assert!(rt; is_paid(&rt, &book, alloc, 5, mine.as_slice())?);
    assert!(rt; !is_paid(&rt, &book, alloc, 4, mine.as_slice())?);
    assert!(rt; !is_paid(&rt, &book, alloc, 5, &[])?);
    assert!(rt; !is_paid(&rt, &book, alloc, 5, others.as_slice())?);
    // It is signed, but it makes more than it uses up.
    assert!(rt; !is_paid(&rt, &book, alloc, 6, more.as_slice())?);
    Ok(())
}

#[test]
fn no_bit_of_a_text_can_be_turned(rt: HostRuntime) -> Result<(), Fail> {
    let alloc = rt.alloc();
    let book = rules(alloc)?;
    let five = message_of(&rt, alloc, 5)?;
    let mut texts = Wallet::new(alloc, SEED).sign(alloc, 0, &five)?;
    for bit in 0..2048 {
        turn(&mut texts, 3, bit);
        assert!(rt; !is_paid(&rt, &book, alloc, 5, texts.as_slice())?);
        turn(&mut texts, 3, bit);
    }
    assert!(rt; is_paid(&rt, &book, alloc, 5, texts.as_slice())?);
    Ok(())
}

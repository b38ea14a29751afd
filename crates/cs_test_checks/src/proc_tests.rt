//! What procedures make, and where they end.
use cs_approve::Book;
use cs_base::{Memory, Sequence, print_bytes};
use cs_proc::{Call, ProcError, run_method};
use cs_tx::tx_digest;
use cs_tx_types::{Trace, Tx};
use cs_tx_value::{Digest, Encoded, Name, Object, Value};
use sha2::{Digest as Hasher, Sha256};
use std::alloc::Global;
use std::test::Fail;

fn bytes(alloc: Global, text: &[u8]) -> Result<Sequence<u8>, Memory> {
    Ok(Sequence::from_vec(Vec::from_slice(alloc, text)?))
}

/// The book of one contract.
fn book_of(alloc: Global, text: &[u8]) -> Result<Book, Memory> {
    let mut texts = Sequence::new(alloc);
    texts.push(bytes(alloc, text)?)?;
    Book::new(alloc, texts.as_slice()).map_err(|_| Memory)
}

/// A call without objects and arguments.
fn call_of(alloc: Global, contract: Digest, method: &str) -> Result<Call, Memory> {
    Ok(Call {
        contract,
        method: bytes(alloc, method.as_bytes())?,
        inputs: Sequence::new(alloc),
        reads: Sequence::new(alloc),
        args: Sequence::new(alloc),
    })
}

fn object(alloc: Global, contract: Digest, type_name: &[u8], value: i64) -> Result<Object, Memory> {
    let mut values = Sequence::new(alloc);
    values.push(Value::Int(value))?;
    Ok(Object {
        contract,
        type_name: Name::from_vec(Vec::from_slice(alloc, type_name)?),
        values,
    })
}

/// What the method `m` of a contract comes to with so many boxes, each with its number, to be used
/// up and to be read.
fn outcome(alloc: Global, text: &str, boxes: i64, reads: i64) -> Result<Tx, ProcError> {
    let id = Sha256::digest(text.as_bytes());
    let book = book_of(alloc, text.as_bytes())?;
    let mut call = call_of(alloc, id, "m")?;
    for number in 0..boxes {
        call.inputs
            .push(([1; 32], object(alloc, id, b"Box", number)?))?;
    }
    for number in 0..reads {
        call.reads
            .push(([2; 32], object(alloc, id, b"Box", number)?))?;
    }
    run_method(alloc, &book, &call)
}

/// Where a text traps: the place of the token, and the text.
const TRAPS: [(usize, &str); 7] = [
    (
        51,
        "\
     type Box(n: int); method m { procedure { let k = 1 / 0; } check { answer true; } }",
    ),
    (
        73,
        "\
     type Box(n: int); method m creates a: Box { procedure { make a = Box(1); make a = Box(2)\
     ; } check { answer true; } }",
    ),
    (
        88,
        "\
     type Box(n: int); method m creates a: Box { procedure { make a = Box(1); make a = Box(1 \
     / 0); } check { answer true; } }",
    ),
    (
        81,
        "\
     type Box(n: int); method m creates a: Box { procedure { } check { answer true; } }",
    ),
    (
        221,
        "\
     type Box(n: int); method inner consumes a: Box reads b: Box takes n: int returns r: int \
     { procedure { set r = a.n * 100 + b.n * 10 + n; } check { answer r == a.n * 100 + b.n * \
     10 + n; } } method m { procedure { let k = 1 / 0; call s = inner(7); } check { answer tr\
     ue; } }",
    ),
    (
        228,
        "\
     type Box(n: int); method inner consumes a: Box reads b: Box takes n: int returns r: int \
     { procedure { set r = a.n * 100 + b.n * 10 + n; } check { answer r == a.n * 100 + b.n * \
     10 + n; } } method m { procedure { call s = inner(1 / 0); } check { answer true; } }",
    ),
    (
        68,
        "\
     type Box(n: int); method inner takes n: int { procedure { let k = 1 / n; } check { answe\
     r true; } } method m { procedure { call inner(0); } check { answer true; } }",
    ),
];

#[test]
fn a_trap_has_its_place(rt: HostRuntime) -> Result<(), Fail> {
    for (place, text) in TRAPS {
        let trap = Some(ProcError::Trap(place));
        assert_eq!(rt; outcome(rt.alloc(), text, 0, 0).err(), trap, "{text}");
    }
    Ok(())
}

/// A method that pays an amount out of a coin.
const PAY: &str = "type Coin(value: int, owner: bytes);
method pay consumes c: Coin takes amount: int, payee: bytes creates a: Coin, b: Coin {
  procedure { make a = Coin(amount, payee); make b = Coin(c.value - amount, c.owner); }
  check { answer a.value == amount and a.owner == payee and b.owner == c.owner
          and a.value >= 0 and b.value >= 0 and a.value + b.value == c.value; }
}
";

/// The key of a coin of 5 that is the first object of a schedule.
const COIN: Digest = [
    0x7b, 0xd3, 0x4c, 0x23, 0x70, 0x00, 0x04, 0x73, 0xba, 0xbd, 0x38, 0x7d, 0xd8, 0x1b, 0xda, 0xa3,
    0x88, 0x42, 0x8b, 0xe3, 0x18, 0xd6, 0xce, 0x18, 0xb3, 0xb8, 0xd3, 0xb5, 0x8c, 0x4a, 0xef, 0x9c,
];

/// What paying an amount out of that coin gives.
fn paid(alloc: Global, id: Digest, amount: i64) -> Result<Tx, ProcError> {
    let book = book_of(alloc, PAY.as_bytes())?;
    let mut call = call_of(alloc, id, "pay")?;
    let mut coin = object(alloc, id, b"Coin", 5)?;
    coin.values.push(Value::Bytes(bytes(alloc, &[0xaa])?))?;
    call.inputs.push((COIN, coin))?;
    call.args.push(Value::Int(amount))?;
    call.args.push(Value::Bytes(bytes(alloc, &[0xbb])?))?;
    run_method(alloc, &book, &call)
}

/// The digest of a transaction, where it has an encoding.
fn digest_of(alloc: Global, tx: &Tx) -> Result<Option<String>, Memory> {
    if !tx.fits() {
        return Ok(None);
    }
    let digest = tx_digest(alloc, tx)?;
    Ok(Some(print_bytes(alloc, digest.as_slice())?))
}

#[test]
fn a_coin_is_paid(rt: HostRuntime) -> Result<(), Fail> {
    let alloc = rt.alloc();
    let id = Sha256::digest(PAY.as_bytes());
    let tx = paid(alloc, id, 2)?;
    let digest = digest_of(alloc, &tx)?.ok_or("no encoding")?;
    assert_eq!(rt;
        digest.as_str(),
        "408a19ea63ef851f320168da8fe996aa347ad5fc1c82b08a379f92e294b0b39f"
    );
    assert_eq!(rt; paid(alloc, id, 6).err(), Some(ProcError::CheckerNo(0)));
    assert_eq!(rt; paid(alloc, [0; 32], 2).err(), Some(ProcError::NoMethod));
    Ok(())
}

/// Calls two methods, one of which calls the other.
const NESTED: &str = "type Box(n: int);
method low consumes a: Box takes n: int returns r: int {
  procedure { set r = a.n * 10 + n; } check { answer true; } }
method mid consumes a: Box reads b: Box creates c: Box* returns r: int {
  procedure { call s = low(1); for i to 3 { make c = Box(s + i); } set r = a.n * 100 + s; }
  check { answer called(0, low) and r == a.n * 100 + depint(0, 0) and len(c) == 3; } }
method m consumes a: Box returns r: int {
  procedure { call s = low(2); call t = mid(); call u = low(3); set r = s * 1000 + t; }
  check { answer called(0, low) and called(1, mid) and called(2, low); } }";

/// A trace: the numbers of its inputs, references and outputs, and its deps.
fn is_trace(trace: &Trace, inputs: usize, reads: usize, outputs: usize, deps: &[u8]) -> bool {
    trace.inputs.len() == inputs
        && trace.references.len() == reads
        && trace.outputs.len() == outputs
        && trace.deps.as_slice() == deps
}

#[test]
fn traces_come_behind_those_that_they_called(rt: HostRuntime) -> Result<(), Fail> {
    let alloc = rt.alloc();
    let tx = outcome(alloc, NESTED, 5, 1)?;
    assert_eq!(rt; tx.traces.len(), 5);
    if let [first, second, third, fourth, last] = tx.traces.as_slice() {
        assert!(rt; is_trace(first, 1, 0, 0, &[]));
        assert!(rt; is_trace(second, 1, 0, 0, &[]));
        assert!(rt; is_trace(third, 1, 1, 3, &[1]));
        assert!(rt; is_trace(fourth, 1, 0, 0, &[]));
        assert!(rt; is_trace(last, 1, 0, 0, &[0, 2, 3]));
        // Boxes 1, 2, 3 and 4, in the order in which the methods begin.
        assert!(rt; last.returns.as_slice().len() == 1);
        if let [Value::Int(number)] = last.returns.as_slice() {
            assert_eq!(rt; *number, 12 * 1000 + 2 * 100 + 31);
        }
    }
    Ok(())
}

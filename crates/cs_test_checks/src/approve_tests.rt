//! What a check sees of the traces that its own stands on, and of numbers that name none: no session
//! has such a number.
use cs_approve::Book;
use cs_base::{Memory, Sequence};
use cs_tx::{Digest, Encoded, Judge, Name, Trace, Tx, Value};
use sha2::{Digest as Hasher, Sha256};
use std::alloc::Global;
use std::process::Abort;
use std::test::Fail;

/// One that asks who stands below.
const AFTER: &str = "method first returns n: int { procedure { } check { answer n == 7; } }
method next { procedure { } check { answer called(0, first) and depint(0, 0) == 7; } }
method last { procedure { } check { answer not called(0, first); } }";

/// The book of this contract.
fn book(alloc: Global) -> Result<Book, Memory> {
    let mut list = Sequence::new(alloc);
    list.push(Sequence::from_vec(Vec::from_slice(alloc, AFTER.as_bytes())?))?;
    Book::new(alloc, list.as_slice()).map_err(|_| Memory)
}

/// A trace of this method without objects, with these deps.
fn trace(alloc: Global, method: &str, deps: &[u8]) -> Result<Trace, Memory> {
    let contract: Digest = Sha256::digest(AFTER.as_bytes());
    Ok(Trace {
        contract,
        method: Name::from_vec(Vec::from_slice(alloc, method.as_bytes())?),
        inputs: Sequence::new(alloc),
        references: Sequence::new(alloc),
        parameters: Sequence::new(alloc),
        outputs: Sequence::new(alloc),
        returns: Sequence::new(alloc),
        deps: Sequence::from_vec(Vec::from_slice(alloc, deps)?),
    })
}

/// A trace of `first`, which returns 7, and one of another method with these deps.
fn two_traces(alloc: Global, method: &str, deps: &[u8]) -> Result<Tx, Memory> {
    let mut first = trace(alloc, "first", &[])?;
    first.returns.push(Value::Int(7))?;
    let mut traces = Sequence::new(alloc);
    traces.push(first)?;
    traces.push(trace(alloc, method, deps)?)?;
    Ok(Tx { traces })
}

/// The deps of the second trace, its method, and what its check says of them.
const DEPS: [(&[u8], &str, bool); 8] = [
    (&[0], "next", true),
    (&[0], "last", false),
    (&[], "next", false),
    (&[], "last", true),
    (&[9], "next", false),
    (&[9], "last", true),
    (&[9, 0], "next", false),
    (&[9, 0], "last", true),
];

fn is_approved(rt: &impl Abort, alloc: Global, book: &Book, tx: &Tx) -> Result<bool, Memory> {
    assert!(rt; tx.fits());
    book.approves(alloc, tx)
}

#[test]
fn a_check_sees_the_traces_that_its_own_stands_on(rt: HostRuntime) -> Result<(), Fail> {
    let alloc = rt.alloc();
    let book = book(alloc)?;
    for (deps, method, yes) in DEPS.iter() {
        let tx = two_traces(alloc, *method, *deps)?;
        assert_eq!(rt; is_approved(&rt, alloc, &book, &tx)?, *yes);
    }
    Ok(())
}

//! A claim of `hashlock`, judged by the rule or by a contract text that says the same.
use cs_approve::Book;
use cs_base::{Memory, Sequence};
use cs_native::RuledBook;
use cs_tx::{Digest, Encoded, Judge, Name, Object, Trace, Tx, Value};
use sha2::{Digest as Hasher, Sha256};
use std::alloc::Global;

/// Who says whether the claim is approved.
#[derive(Clone, Copy)]
pub enum Sayer {
    Rule,
    Text,
}

/// The claims of the rule `hashlock`, as a contract.
const TEXT: &str = "type open(v: int); type lock(h: bytes, v: int);
method claim consumes l: lock takes p: bytes creates o: open {
  procedure { make o = open(l.v); }
  check { answer sha256(p) == l.h and o.v == l.v; }
}
";

/// What the lock's hash is the hash of.
const SECRET: &[u8] = b"secret";

fn id_of(sayer: Sayer) -> Digest {
    match sayer {
        Sayer::Rule => Sha256::digest(b"native:hashlock"),
        Sayer::Text => Sha256::digest(TEXT.as_bytes()),
    }
}

// The book with the text, behind the rules.
fn book(alloc: Global) -> Result<RuledBook, Memory> {
    let mut texts = Sequence::new(alloc);
    texts.push(bytes(alloc, TEXT.as_bytes())?)?;
    match Book::new(alloc, texts.as_slice()) {
        Ok(book) => Ok(RuledBook::new(book)),
        Err(_) => Err(Memory),
    }
}

fn bytes(alloc: Global, content: &[u8]) -> Result<Sequence<u8>, Memory> {
    Ok(Sequence::from_vec(Vec::from_slice(alloc, content)?))
}

fn name(alloc: Global, text: &str) -> Result<Name, Memory> {
    Ok(Name::from_vec(Vec::from_slice(alloc, text.as_bytes())?))
}

fn lock(alloc: Global, contract: Digest) -> Result<Object, Memory> {
    let mut values = Sequence::new(alloc);
    let hash: Digest = Sha256::digest(SECRET);
    values.push(Value::Bytes(bytes(alloc, hash.as_slice())?))?;
    values.push(Value::Int(7))?;
    Ok(Object {
        contract,
        type_name: name(alloc, "lock")?,
        values,
    })
}

fn open(alloc: Global, contract: Digest) -> Result<Object, Memory> {
    let mut values = Sequence::new(alloc);
    values.push(Value::Int(7))?;
    Ok(Object {
        contract,
        type_name: name(alloc, "open")?,
        values,
    })
}

fn claim(alloc: Global, contract: Digest) -> Result<Tx, Memory> {
    let mut inputs = Sequence::new(alloc);
    inputs.push(([1; 32], lock(alloc, contract)?))?;
    let mut parameters = Sequence::new(alloc);
    parameters.push(Value::Bytes(bytes(alloc, SECRET)?))?;
    let mut outputs = Sequence::new(alloc);
    outputs.push(open(alloc, contract)?)?;
    let mut traces = Sequence::new(alloc);
    traces.push(Trace {
        contract,
        method: name(alloc, "claim")?,
        inputs,
        references: Sequence::new(alloc),
        parameters,
        outputs,
        returns: Sequence::new(alloc),
        deps: Sequence::new(alloc),
    })?;
    Ok(Tx { traces })
}

/// How often of so many times the claim is approved.
pub fn judge_often(alloc: Global, sayer: Sayer, count: u32) -> Result<u32, Memory> {
    let book = book(alloc)?;
    let tx = claim(alloc, id_of(sayer))?;
    if !tx.fits() {
        return Ok(0);
    }
    let mut yes: u32 = 0;
    for _ in 0..count {
        if book.approves(alloc, &tx)? {
            yes = yes.saturating_add(1);
        }
    }
    Ok(yes)
}

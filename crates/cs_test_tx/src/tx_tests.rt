ghost use Rattle.cs_tx_types.specs.Transaction.{TxFits};

use cs_base::{Config, Key, Sequence, Writer};
use cs_tx::*;
use std::alloc::Global;
use std::process::Abort;
use std::test::Fail;

/// SHA-256 of the five bytes `token`.
const TOKEN: Digest = [
    0x3c, 0x46, 0x9e, 0x9d, 0x6c, 0x58, 0x75, 0xd3, 0x7a, 0x43, 0xf3, 0x53, 0xd4, 0xf8, 0x8e, 0x61,
    0xfc, 0xf8, 0x12, 0xc6, 0x6e, 0xee, 0x34, 0x57, 0x46, 0x5a, 0x40, 0xb0, 0xda, 0x41, 0x53, 0xe0,
];

/// The key of the genesis coin of value 5.
const COIN: Digest = [
    0x48, 0xd0, 0xf4, 0xbc, 0x08, 0xed, 0x70, 0x65, 0x6d, 0xa9, 0xcb, 0xd2, 0x19, 0xfc, 0x9f, 0x52,
    0xae, 0x0b, 0x49, 0x09, 0x81, 0xbf, 0xea, 0x40, 0x0a, 0xfd, 0x6f, 0xc1, 0xf8, 0x52, 0xe5, 0xa6,
];

const TX_DIGEST: Digest = [
    0x90, 0x5f, 0xf0, 0xfd, 0x05, 0xd1, 0x1b, 0x63, 0x02, 0xbf, 0xf7, 0x83, 0xf4, 0xab, 0x02, 0x80,
    0x2f, 0x1f, 0x21, 0x92, 0xa2, 0xb9, 0x21, 0x08, 0x91, 0x9c, 0x3a, 0xa5, 0x34, 0x61, 0x2e, 0x7e,
];

const SESSION_DIGEST: Digest = [
    0xac, 0x5e, 0x70, 0x25, 0xd2, 0x16, 0x7b, 0x57, 0xba, 0x56, 0xa9, 0x95, 0xfe, 0x24, 0xb4, 0x56,
    0xa4, 0x03, 0x14, 0x8c, 0x19, 0x73, 0x7b, 0x0e, 0xf0, 0x60, 0x65, 0xb4, 0xe3, 0x63, 0x0a, 0x43,
];

fn coin(alloc: Global, contract: Digest, value: i64) -> Result<Object, Fail> {
    let mut values = Sequence::new(alloc);
    values.push(Value::Int(value))?;
    Ok(Object {
        contract,
        type_name: Name::from_vec(b"coin".to_vec(alloc)?),
        values,
    })
}

/// A coin of value 5 is split into 2 and 3, so many times at once; the second output's contract is
/// given.
fn split(alloc: Global, times: u8, contract: Digest) -> Result<Trace, Fail> {
    let mut inputs = Sequence::new(alloc);
    for _ in 0..times {
        inputs.push((COIN, coin(alloc, TOKEN, 5)?))?;
    }
    let mut outputs = Sequence::new(alloc);
    outputs.push(coin(alloc, TOKEN, 2)?)?;
    outputs.push(coin(alloc, contract, 3)?)?;
    Ok(Trace {
        contract: TOKEN,
        method: Name::from_vec(b"transfer".to_vec(alloc)?),
        inputs,
        references: Sequence::new(alloc),
        parameters: Sequence::new(alloc),
        outputs,
        returns: Sequence::new(alloc),
        deps: Sequence::new(alloc),
    })
}

fn session(alloc: Global, trace: Trace) -> Result<Session, Fail> {
    let mut traces = Sequence::new(alloc);
    traces.push(trace)?;
    Ok(Session {
        tx: Tx { traces },
        number: 1,
        dummies: Sequence::new(alloc),
    })
}

fn encoding<T: Encoded>(rt: &impl Abort, alloc: Global, value: &T) -> Result<Vec<u8>, Fail> {
    assert!(rt; value.fits());
    let mut out = Writer::new(alloc);
    value.encode(&mut out)?;
    Ok(out.into_bytes())
}

fn says_yes<J: Judge>(alloc: Global, judge: &J, tx: &Tx) -> Result<bool, Fail>
    requires { TxFits tx.now }
{
    Ok(judge.approves(alloc, tx)?)
}

#[test]
fn split_coin_has_its_bytes_and_digests(rt: HostRuntime) -> Result<(), Fail> {
    let alloc = rt.alloc();
    let x = session(alloc, split(alloc, 1, TOKEN)?)?;
    let config = Config::new(1, 0, 0)?;
    assert!(rt; x.fits() && x.tx.fits());
    assert_eq!(rt; encoding(&rt, alloc, &x.tx)?.len(), 221);
    let bytes = encoding(&rt, alloc, &x)?;
    assert_eq!(rt; bytes.len(), 230);
    assert!(rt; bytes[221..] == b"\0\0\0\0\0\0\0\x01\0"[..]);
    assert!(rt; tx_digest(alloc, &x.tx)? == TX_DIGEST);
    assert!(rt; session_digest(alloc, &x)? == SESSION_DIGEST);
    assert!(rt; well_formed(alloc, &x, &config).is_ok());
    assert!(rt; concerned(alloc, &x, &config)?.as_slice() == [0].as_slice());
    assert!(rt; output_keys(alloc, &x.tx)?.len() == 1);
    assert!(rt; says_yes(alloc, &&TokenJudge, &x.tx)?);
    Ok(())
}

fn is_refused(rt: &impl Abort, alloc: Global, x: Session, fault: Malformed) -> Result<(), Fail> {
    let config = Config::new(1, 0, 0)?;
    assert!(rt; x.fits());
    assert!(rt; well_formed(alloc, &x, &config) == Err(fault));
    Ok(())
}

fn with_late_dep(alloc: Global) -> Result<Session, Fail> {
    let mut trace = split(alloc, 1, TOKEN)?;
    trace.deps.push(0)?;
    session(alloc, trace)
}

fn with_dummy(alloc: Global) -> Result<Session, Fail> {
    let mut x = session(alloc, split(alloc, 1, TOKEN)?)?;
    x.dummies.push((0, 0))?;
    Ok(x)
}

#[test]
fn first_fault_is_named(rt: HostRuntime) -> Result<(), Fail> {
    let alloc = rt.alloc();
    let no_input = session(alloc, split(alloc, 0, TOKEN)?)?;
    is_refused(&rt, alloc, no_input, Malformed::NoInput)?;
    let twice = session(alloc, split(alloc, 2, [7; 32])?)?;
    is_refused(&rt, alloc, twice, Malformed::TwiceUsed(Key::Object(COIN)))?;
    let foreign = session(alloc, split(alloc, 1, [7; 32])?)?;
    is_refused(&rt, alloc, foreign, Malformed::Foreign(0))?;
    is_refused(&rt, alloc, with_late_dep(alloc)?, Malformed::Dep(0))?;
    is_refused(&rt, alloc, with_dummy(alloc)?, Malformed::Dummies)
}

/// The encoding is taken, and no other number of bytes.
fn comes_back<T: Encoded>(rt: &impl Abort, alloc: Global, value: T) -> Result<(), Fail> {
    let mut bytes = encoding(rt, alloc, &value)?;
    assert!(rt; T::check_form(&bytes).is_ok());
    let again = T::decode(alloc, &bytes)?.copy(alloc)?;
    assert!(rt; encoding(rt, alloc, &again)?.as_slice() == bytes.as_slice());
    bytes.pop();
    assert!(rt; matches!(T::decode(alloc, &bytes), Err(FormError::BadForm)));
    Ok(())
}

#[test]
fn actions_come_back(rt: HostRuntime) -> Result<(), Fail> {
    let alloc = rt.alloc();
    let x = session(alloc, split(alloc, 1, TOKEN)?)?;
    comes_back(&rt, alloc, Action::Prepare(x))?;
    let x = session(alloc, split(alloc, 1, TOKEN)?)?;
    comes_back(&rt, alloc, Action::Decide(Vote::Commit, x))?;
    let mut actions = Sequence::new(alloc);
    actions.push(Action::Prepare(session(alloc, split(alloc, 1, TOKEN)?)?))?;
    let entry = Entry { actions };
    assert!(rt; entry.fits(1));
    assert!(rt; entry_digest(alloc, &entry, 1)? != SESSION_DIGEST);
    Ok(())
}

#[test]
fn what_is_too_long_is_not_read(rt: HostRuntime) {
    assert!(rt; Tx::check_form(&[0; 8193]) == Err(FormError::TooLong));
    assert!(rt; Session::check_form(&[0; 8352]) == Err(FormError::TooLong));
    assert!(rt; Action::check_form(&[0; 8353]) == Err(FormError::BadForm));
    assert!(rt; Action::check_form(&[0; 8354]) == Err(FormError::TooLong));
}

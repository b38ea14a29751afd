//! Tests of what is encoded by version: entries, leaves, checkpoints and proofs.

use cs_base::{Memory, Sequence, Writer};
use cs_test_samples::spend;
use cs_tx::*;
use std::alloc::Global;
use std::process::Abort;
use std::test::Fail;

/// The most bytes of a batch.
const LIMIT: usize = 16_384;

/// The most bytes of a text.
const TEXT: usize = 256;

/// The most parameters of a trace.
const PARAMETERS: u8 = 16;

// The encoding in a version is taken, and no proper prefix of it.
fn comes_back<T: Versioned>(
    rt: &impl Abort,
    alloc: Global,
    value: &T,
    version: u8,
) -> Result<(), Fail> {
    assert!(rt; version == 1 || version == 2);
    assert!(rt; value.fits(version));
    let mut out = Writer::new(alloc);
    value.encode(&mut out, version)?;
    let bytes = out.into_bytes();
    assert!(rt; T::check_form(&bytes, version).is_ok());
    let again = T::decode(alloc, &bytes, version)?.copy(alloc)?;
    assert!(rt; again.fits(version));
    let mut out = Writer::new(alloc);
    again.encode(&mut out, version)?;
    assert!(rt; out.into_bytes().as_slice() == bytes.as_slice());
    for length in 0..bytes.len() {
        let (front, _) = bytes.split_at(length);
        assert!(rt; T::check_form(front, version) == Err(FormError::BadForm));
    }
    Ok(())
}

// An entry of so many actions: a vote on the first session, and a decision on each other one.
fn entry(alloc: Global, count: u64) -> Result<Entry, Memory> {
    let mut actions = Sequence::new(alloc);
    for number in 0..count {
        let session = spend(alloc, [7; 32], 5, &[5], number)?;
        let action = if number == 0 {
            Action::Prepare(session)
        } else {
            Action::Decide(Vote::Commit, session)
        };
        actions.push(action)?;
    }
    Ok(Entry { actions })
}

#[test]
fn entries_come_back(rt: HostRuntime) -> Result<(), Fail> {
    let alloc = rt.alloc();
    comes_back(&rt, alloc, &entry(alloc, 1)?, 1)?;
    for count in [1, 2, 31, 32] {
        comes_back(&rt, alloc, &entry(alloc, count)?, 2)?;
    }
    Ok(())
}

#[test]
fn an_entry_has_one_action_or_few(rt: HostRuntime) -> Result<(), Fail> {
    let alloc = rt.alloc();
    for count in [0, 2, 32] {
        assert!(rt; !entry(alloc, count)?.fits(1));
    }
    for count in [0, 33] {
        assert!(rt; !entry(alloc, count)?.fits(2));
    }
    // Each version's bytes are none of the other's.
    let one = entry(alloc, 1)?;
    assert!(rt; one.fits(1));
    assert!(rt; one.fits(2));
    let mut out = Writer::new(alloc);
    one.encode(&mut out, 1)?;
    assert!(rt; Entry::check_form(&out.into_bytes(), 2) == Err(FormError::BadForm));
    let mut out = Writer::new(alloc);
    one.encode(&mut out, 2)?;
    assert!(rt; Entry::check_form(&out.into_bytes(), 1) == Err(FormError::BadForm));
    assert!(rt; entry_digest(alloc, &one, 1)? != entry_digest(alloc, &one, 2)?);
    Ok(())
}

// Texts of so many zeros together, each as long as can be, and at most 16 of them.
fn texts(alloc: Global, bytes: usize) -> Result<Sequence<Value>, Memory> {
    let mut texts = Sequence::new(alloc);
    let mut left = bytes;
    for _ in 0..PARAMETERS {
        let zeros = [0; TEXT];
        let text = &zeros[..left.min(TEXT)];
        texts.push(Value::Bytes(Sequence::from_vec(Vec::from_slice(alloc, text)?)))?;
        left = left.saturating_sub(TEXT);
    }
    Ok(texts)
}

// A vote on a session with so many bytes of text, in 16 texts.
fn vote(alloc: Global, bytes: usize) -> Result<Action, Memory> {
    let mut traces = Sequence::new(alloc);
    traces.push(Trace {
        contract: [7; 32],
        method: Name::from_vec(Vec::from_slice(alloc, b"m")?),
        inputs: Sequence::new(alloc),
        references: Sequence::new(alloc),
        parameters: texts(alloc, bytes)?,
        outputs: Sequence::new(alloc),
        returns: Sequence::new(alloc),
        deps: Sequence::new(alloc),
    })?;
    Ok(Action::Prepare(Session {
        tx: Tx { traces },
        number: 0,
        dummies: Sequence::new(alloc),
    }))
}

// A batch of four votes, of which the last has so many bytes of text.
fn batch(alloc: Global, bytes: usize) -> Result<Entry, Memory> {
    let mut actions = Sequence::new(alloc);
    for _ in 0..3 {
        actions.push(vote(alloc, 4_000)?)?;
    }
    actions.push(vote(alloc, bytes)?)?;
    Ok(Entry { actions })
}

// How many bytes of text fill it up to the limit.
fn text_left(rt: &impl Abort, alloc: Global) -> Result<usize, Fail> {
    let empty = batch(alloc, 0)?;
    assert!(rt; empty.fits(2));
    let mut out = Writer::new(alloc);
    empty.encode(&mut out, 2)?;
    Ok(LIMIT.saturating_sub(out.into_bytes().len()))
}

#[test]
fn a_batch_has_16384_bytes(rt: HostRuntime) -> Result<(), Fail> {
    let alloc = rt.alloc();
    let left = text_left(&rt, alloc)?;
    let full = batch(alloc, left)?;
    assert!(rt; full.fits(2));
    let mut out = Writer::new(alloc);
    full.encode(&mut out, 2)?;
    let bytes = out.into_bytes();
    assert!(rt; bytes.len() == LIMIT);
    assert!(rt; Entry::check_form(&bytes, 2).is_ok());
    assert!(rt; !batch(alloc, left.saturating_add(1))?.fits(2));
    assert!(rt; Entry::check_form(&[0; 16_385], 2) == Err(FormError::TooLong));
    assert!(rt; Entry::check_form(&[0; 8_354], 1) == Err(FormError::TooLong));
    Ok(())
}

// What covers so many leaves.
fn checkpoint(leaves: u16) -> Checkpoint {
    Checkpoint {
        shard: 3,
        number: 5,
        previous: [1; 32],
        leaf_root: [2; 32],
        table_root: [3; 32],
        leaves,
    }
}

fn leaf(alloc: Global, place: u8) -> Result<Leaf, Memory> {
    Ok(Leaf {
        slot: 81,
        place,
        action: Action::Prepare(spend(alloc, [7; 32], 5, &[5], 0)?),
        result: Effect::Voted(Vote::Commit),
    })
}

#[test]
fn leaves_and_checkpoints_come_back(rt: HostRuntime) -> Result<(), Fail> {
    let alloc = rt.alloc();
    comes_back(&rt, alloc, &leaf(alloc, 0)?, 1)?;
    comes_back(&rt, alloc, &leaf(alloc, 31)?, 2)?;
    assert!(rt; !leaf(alloc, 1)?.fits(1));
    comes_back(&rt, alloc, &checkpoint(16), 1)?;
    comes_back(&rt, alloc, &checkpoint(512), 2)?;
    assert!(rt; !checkpoint(17).fits(1));
    Ok(())
}

// A proof of the leaf at this place, with so many hashes.
fn proof(alloc: Global, place: u16, hashes: u8, leaves: u16) -> Result<Proof, Memory> {
    let mut path = Sequence::new(alloc);
    for hash in 0..hashes {
        path.push([hash; 32])?;
    }
    Ok(Proof {
        checkpoint: checkpoint(leaves),
        place,
        leaf: leaf(alloc, 0)?,
        path,
    })
}

#[test]
fn proofs_come_back(rt: HostRuntime) -> Result<(), Fail> {
    let alloc = rt.alloc();
    comes_back(&rt, alloc, &proof(alloc, 15, 4, 16)?, 1)?;
    comes_back(&rt, alloc, &proof(alloc, 511, 9, 512)?, 2)?;
    assert!(rt; !proof(alloc, 16, 4, 16)?.fits(1));
    assert!(rt; !proof(alloc, 15, 5, 16)?.fits(1));
    assert!(rt; !proof(alloc, 512, 9, 512)?.fits(2));
    assert!(rt; !proof(alloc, 511, 10, 512)?.fits(2));
    Ok(())
}

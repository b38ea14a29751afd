//! Sessions that read one object at the same time.
use crate::calls::{decided, prepared};
use cs_base::{Config, Key, Memory, Sequence, Writer};
use cs_table::Table;
use cs_test_samples::{Transfer, coin, spend};
use cs_tx::{
    Digest, Encoded, FormError, Session, State, Vote, output_name, session_digest, tx_digest,
};
use cs_tx_types::Effect;
use std::alloc::Global;
use std::process::Abort;
use std::test::Fail;

const FIRST: Digest = [1; 32];

const SECOND: Digest = [2; 32];

const PRICE: Digest = [3; 32];

/// A table of two coins of 5 and a third, which is read.
fn coins(rt: &impl Abort, alloc: Global) -> Result<Table, Fail> {
    let first = coin(alloc, 5)?;
    let second = coin(alloc, 5)?;
    let price = coin(alloc, 5)?;
    assert!(rt; first.fits() && second.fits() && price.fits());
    let objects = [
        (Key::Object(FIRST), first),
        (Key::Object(SECOND), second),
        (Key::Object(PRICE), price),
    ];
    let config = Config::new(1, 0, 0).expect(rt, "a configuration");
    Ok(Table::genesis(alloc, config, 0, &objects)?)
}

/// A session that uses up the coin of this name, of this worth, and names the price as a reference so many times.
fn reads(
    alloc: Global,
    name: Digest,
    worth: i64,
    times: u8,
    number: u64,
) -> Result<Session, Memory> {
    let mut transfer = Transfer::new(alloc);
    transfer.inputs.push((name, coin(alloc, worth)?))?;
    for _ in 0..times {
        transfer.references.push((PRICE, coin(alloc, 5)?))?;
    }
    transfer.into_session(alloc, number)
}

/// What is done with a session, and what that answers.
enum Act {
    Votes(Vote),
    Decides(Vote, Effect),
}

/// Which session of a list it is done with, and then how many read the price, and which of the list
/// came last.
type Row = (usize, Act, usize, Option<usize>);

fn carry_out(
    rt: &impl Abort,
    alloc: Global,
    table: &mut Table,
    session: &Session,
    wanted: &Act,
) -> Result<(), Fail> {
    match wanted {
        Act::Votes(vote) => assert!(rt; prepared(rt, alloc, table, session)? == *vote),
        Act::Decides(vote, effect) => {
            assert!(rt; decided(rt, alloc, table, session, *vote)? == *effect);
        }
    }
    Ok(())
}

/// The sessions that read the price, in order; none where it is active.
fn readers<'a>(rt: &impl Abort, table: &'a Table) -> &'a [Digest] {
    let row = table.record(&Key::Object(PRICE)).expect(rt, "a record");
    match &row.state {
        State::Active(_) => &[],
        State::Shared(_, readers) => readers.as_slice(),
        _ => panic!(rt; "neither active nor shared"),
    }
}

/// Whether so many read the price, and the session of this place came last.
fn are_readers(
    rt: &impl Abort,
    alloc: Global,
    table: &Table,
    count: usize,
    last: Option<&Session>,
) -> Result<bool, Fail> {
    let Some(session) = last else {
        return Ok(readers(rt, table).is_empty() && count == 0);
    };
    assert!(rt; session.fits());
    let digest = session_digest(alloc, session)?;
    let found = readers(rt, table);
    Ok(found.len() == count && found.last() == Some(&digest))
}

fn play(
    rt: &impl Abort,
    alloc: Global,
    table: &mut Table,
    sessions: &[Session],
    rows: &[Row],
) -> Result<(), Fail> {
    for (at, what, count, last) in rows {
        let session = sessions.get(*at).expect(rt, "a session");
        carry_out(rt, alloc, table, session, what)?;
        let last = last.and_then(|at| sessions.get(at));
        assert!(rt; are_readers(rt, alloc, table, *count, last)?);
    }
    Ok(())
}

const COMMITS: Act = Act::Votes(Vote::Commit);

const ABORTS: Act = Act::Votes(Vote::Abort);

const ACCEPTED: Act = Act::Decides(Vote::Commit, Effect::Accepted);

const ABORTED: Act = Act::Decides(Vote::Abort, Effect::Aborted);

/// Two sessions read the price, the first of them by two references, and a third would use it up.
const TWO: [Row; 5] = [
    (0, COMMITS, 1, Some(0)),
    (1, COMMITS, 2, Some(1)),
    (2, ABORTS, 2, Some(1)),
    (0, ACCEPTED, 1, Some(1)),
    (1, ABORTED, 0, None),
];

#[test]
fn two_sessions_read_an_object(rt: HostRuntime) -> Result<(), Fail> {
    let alloc = rt.alloc();
    let mut table = coins(&rt, alloc)?;
    let sessions = [
        reads(alloc, FIRST, 5, 2, 1)?,
        reads(alloc, SECOND, 5, 1, 2)?,
        spend(alloc, PRICE, 5, &[5], 3)?,
    ];
    play(&rt, alloc, &mut table, &sessions, &TWO)
}

/// A table in which a coin was split into 64 of 1, and the digest of the transaction that did it.
fn split(rt: &impl Abort, alloc: Global) -> Result<(Table, Digest), Fail> {
    let mut table = coins(rt, alloc)?;
    let split = spend(alloc, FIRST, 5, &[1; 64], 0)?;
    carry_out(rt, alloc, &mut table, &split, &COMMITS)?;
    carry_out(rt, alloc, &mut table, &split, &ACCEPTED)?;
    assert!(rt; split.tx.fits());
    let digest = tx_digest(alloc, &split.tx)?;
    Ok((table, digest))
}

/// Sessions that read the price: 64 that use up these coins, and two more of another coin.
fn many(alloc: Global, digest: &Digest) -> Result<Vec<Session>, Memory> {
    let mut sessions = Vec::new(alloc);
    for place in 0..64 {
        sessions.push(reads(alloc, output_name(digest, 0, place), 1, 1, 1)?)?;
    }
    sessions.push(reads(alloc, SECOND, 5, 1, 1)?)?;
    sessions.push(reads(alloc, SECOND, 5, 1, 2)?)?;
    Ok(sessions)
}

/// Behind 64 readers: the 65th is late, and stays so once it was; another comes behind one that left.
const LATE: [Row; 4] = [
    (64, ABORTS, 64, Some(63)),
    (0, ACCEPTED, 63, Some(63)),
    (64, ABORTS, 63, Some(63)),
    (65, COMMITS, 64, Some(65)),
];

#[test]
fn a_65th_session_reads_once_one_has_left(rt: HostRuntime) -> Result<(), Fail> {
    let alloc = rt.alloc();
    let (mut table, digest) = split(&rt, alloc)?;
    let sessions = many(alloc, &digest)?;
    for session in sessions.iter().take(64) {
        carry_out(&rt, alloc, &mut table, session, &COMMITS)?;
    }
    play(&rt, alloc, &mut table, sessions.as_slice(), &LATE)
}

/// A state that is read by so many, of which the last one stands twice or not.
fn shared(alloc: Global, count: u8, is_twice: bool) -> Result<State, Memory> {
    let mut readers = Sequence::new(alloc);
    for number in 0..count {
        let name = if is_twice && number + 1 == count {
            0
        } else {
            number
        };
        readers.push([name; 32])?;
    }
    Ok(State::Shared(coin(alloc, 5)?, readers))
}

/// The bytes of the state of one reader, with so many readers behind a count.
fn bytes_of(alloc: Global, count: u8, is_twice: bool) -> Result<Vec<u8>, Memory> {
    let mut out = Writer::new(alloc);
    out.u8(4)?;
    coin_bytes(alloc, &mut out)?;
    out.u8(count)?;
    for number in 0..count {
        let name = if is_twice && number + 1 == count {
            0
        } else {
            number
        };
        out.take(&[name; 32])?;
    }
    Ok(out.into_bytes())
}

fn coin_bytes(alloc: Global, out: &mut Writer) -> Result<(), Memory> {
    let object = coin(alloc, 5)?;
    if object.fits() {
        object.encode(out)?;
    }
    Ok(())
}

#[test]
fn a_shared_state_has_one_to_64_readers(rt: HostRuntime) -> Result<(), Fail> {
    let alloc = rt.alloc();
    for count in [1, 2, 64] {
        let state = shared(alloc, count, false)?;
        assert!(rt; state.fits());
        let mut out = Writer::new(alloc);
        state.encode(&mut out)?;
        let bytes = bytes_of(alloc, count, false)?;
        assert!(rt; out.into_bytes().as_slice() == bytes.as_slice());
        assert!(rt; State::check_form(&bytes).is_ok() && State::decode(alloc, &bytes).is_ok());
    }
    for (count, is_twice) in [(0, false), (65, false), (2, true), (64, true)] {
        assert!(rt; !shared(alloc, count, is_twice)?.fits());
        let bytes = bytes_of(alloc, count, is_twice)?;
        assert!(rt; State::check_form(&bytes) == Err(FormError::BadForm));
        assert!(rt; matches!(State::decode(alloc, &bytes), Err(FormError::BadForm)));
    }
    Ok(())
}

//! What is due in one batch.
use cs_base::{Config, MOST_ACTIONS, MOST_BATCH, Memory, Sequence, Version};
use cs_node_pool::Pool;
use cs_node_state::Pooled;
use cs_test_samples::{Transfer, coin};
use cs_tx::{Action, Encoded, Entry, Session, Versioned, concerned, session_digest, well_formed};
use std::alloc::Global;
use std::process::Abort;
use std::test::Fail;

/// A session that uses up a coin of its own and makes so many.
fn session(alloc: Global, number: u64, coins: u16) -> Result<Session, Memory> {
    let mut name = [7; 32];
    name[0] = (number % 256) as u8;
    let mut transfer = Transfer::new(alloc);
    transfer.inputs.push((name, coin(alloc, 0)?))?;
    for _ in 0..coins {
        transfer.outputs.push(coin(alloc, 0)?)?;
    }
    transfer.into_session(alloc, number)
}

/// A pool in which so many sessions wait, each of which makes so many coins.
fn pool(
    rt: &impl Abort,
    alloc: Global,
    version: u8,
    sessions: u64,
    coins: u16,
) -> Result<Pool, Fail> {
    let config = Config::with_version(1, 1, 0, version).expect(rt, "a configuration");
    let mut pool = Pool::new(alloc, config);
    for number in 0..sessions {
        let session = session(alloc, number, coins)?;
        assert!(rt; session.fits());
        let digest = session_digest(alloc, &session)?;
        assert!(rt; !pool.contains(&digest)?);
        assert!(rt; well_formed(alloc, &session, pool.config()).is_ok());
        let shards = concerned(alloc, &session, pool.config())?;
        let pooled = Pooled {
            session,
            locked: false,
            ballots: Sequence::new(alloc),
        };
        pool.push(digest, pooled, shards)?;
    }
    Ok(pool)
}

/// The entry asks for the votes on the sessions of the first numbers, in their order.
fn asks_first(rt: &impl Abort, entry: &Entry, count: u64) {
    assert!(rt; entry.actions.len() as u64 == count);
    let mut number = 0;
    for action in entry.actions.as_slice() {
        match action {
            Action::Prepare(session) => assert!(rt; session.number == number),
            Action::Decide(_, _) => assert!(rt; false),
        }
        number = number.wrapping_add(1);
    }
}

#[test]
fn as_many_sessions_wait_as_a_batch_has_actions(rt: HostRuntime) -> Result<(), Fail> {
    for count in [1, 2, 31, 32] {
        let entry = pool(&rt, rt.alloc(), 2, count, 0)?
            .due(rt.alloc())?
            .expect(&rt, "an entry");
        asks_first(&rt, &entry, count);
    }
    Ok(())
}

#[test]
fn a_batch_takes_the_first_32_of_40(rt: HostRuntime) -> Result<(), Fail> {
    let entry = pool(&rt, rt.alloc(), 2, 40, 0)?
        .due(rt.alloc())?
        .expect(&rt, "an entry");
    asks_first(&rt, &entry, u64::from(MOST_ACTIONS));
    Ok(())
}

#[test]
fn a_batch_takes_as_many_as_fit_into_its_bytes(rt: HostRuntime) -> Result<(), Fail> {
    let entry = pool(&rt, rt.alloc(), 2, 32, 24)?
        .due(rt.alloc())?
        .expect(&rt, "an entry");
    let count = entry.actions.len() as u64;
    assert!(rt; count > 1 && count < 32);
    asks_first(&rt, &entry, count);
    let left = entry.room(MOST_BATCH, Version::Two);
    let next = Action::Prepare(session(rt.alloc(), count, 24)?);
    assert!(rt; next.room(left.expect(&rt, "room")).is_none());
    Ok(())
}

#[test]
fn in_version_1_there_is_one_action(rt: HostRuntime) -> Result<(), Fail> {
    let entry = pool(&rt, rt.alloc(), 1, 40, 0)?
        .due(rt.alloc())?
        .expect(&rt, "an entry");
    asks_first(&rt, &entry, 1);
    Ok(())
}

#[test]
fn nothing_is_due_in_an_empty_pool(rt: HostRuntime) -> Result<(), Fail> {
    for version in [1, 2] {
        assert!(rt;
            pool(&rt, rt.alloc(), version, 0, 0)?
                .due(rt.alloc())?
                .is_none()
        );
    }
    Ok(())
}

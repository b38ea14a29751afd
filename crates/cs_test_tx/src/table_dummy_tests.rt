//! Worked cases of the dummies of a shard.
use crate::calls::{decided, prepared};
use cs_base::{Config, Key, Memory};
use cs_table::Table;
use cs_test_samples::spend;
use cs_tx::{Session, Vote};
use cs_tx_types::Effect;
use std::alloc::Global;
use std::process::Abort;
use std::test::Fail;

/// Shard 1 of two, which holds no object and this many dummies.
fn dummies_alone(rt: &impl Abort, alloc: Global, dummies: u16) -> Result<Table, Fail> {
    let config = Config::new(2, 0, dummies).expect(rt, "a configuration");
    Ok(Table::genesis(alloc, config, 1, &[])?)
}

/// A session that uses up a coin of shard 0, and in shard 1 the dummy of this serial.
fn session(alloc: Global, number: u64, serial: u64) -> Result<Session, Memory> {
    let mut session = spend(alloc, [2; 32], 5, &[], number)?;
    session.dummies.push((1, serial))?;
    Ok(session)
}

#[test]
fn a_used_dummy_is_followed_by_one(rt: HostRuntime) -> Result<(), Fail> {
    let alloc = rt.alloc();
    let mut table = dummies_alone(&rt, alloc, 1)?;
    assert!(rt; table.least_dummy() == Key::Dummy(1, 0));
    let first = session(alloc, 1, 0)?;
    assert!(rt; prepared(&rt, alloc, &mut table, &first)? == Vote::Commit);
    assert!(rt; table.least_dummy() == Key::Dummy(1, 1));
    assert!(rt; decided(&rt, alloc, &mut table, &first, Vote::Commit)? == Effect::Accepted);
    assert!(rt; table.least_dummy() == Key::Dummy(1, 1));
    let second = session(alloc, 2, 0)?;
    assert!(rt; prepared(&rt, alloc, &mut table, &second)? == Vote::Abort);
    Ok(())
}

#[test]
fn an_aborted_session_lets_its_dummy_go(rt: HostRuntime) -> Result<(), Fail> {
    let alloc = rt.alloc();
    let mut table = dummies_alone(&rt, alloc, 2)?;
    let first = session(alloc, 1, 0)?;
    let second = session(alloc, 2, 1)?;
    assert!(rt; prepared(&rt, alloc, &mut table, &second)? == Vote::Commit);
    assert!(rt; prepared(&rt, alloc, &mut table, &first)? == Vote::Commit);
    assert!(rt; table.least_dummy() == Key::Dummy(1, 2));
    assert!(rt; decided(&rt, alloc, &mut table, &first, Vote::Commit)? == Effect::Accepted);
    assert!(rt; decided(&rt, alloc, &mut table, &second, Vote::Abort)? == Effect::Aborted);
    assert!(rt; table.least_dummy() == Key::Dummy(1, 1));
    assert!(rt; decided(&rt, alloc, &mut table, &second, Vote::Abort)? == Effect::Skipped);
    Ok(())
}

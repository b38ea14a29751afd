//! Worked cases of a table.
use crate::calls::{decided, prepared};
use cs_base::{Config, Key, Memory};
use cs_table::{Table, TableError};
use cs_test_samples::{coin, spend};
use cs_tx::{Encoded, Session, State, Vote, genesis_key};
use cs_tx_types::Effect;
use std::alloc::Global;
use std::process::Abort;
use std::test::Fail;

fn config(rt: &impl Abort) -> Config {
    Config::new(1, 0, 2).expect(rt, "a configuration")
}

/// The key of genesis object 0, a coin of 10, and a table of that alone.
fn one_coin(rt: &impl Abort, alloc: Global) -> Result<(Key, Table), Fail> {
    let object = coin(alloc, 10)?;
    assert!(rt; object.fits());
    let key = genesis_key(alloc, 0, &object)?;
    let objects = [(key, object)];
    let table = Table::genesis(alloc, config(rt), 0, &objects)?;
    Ok((key, table))
}

/// Splits the coin, which is said to be worth so much, in two.
fn split(alloc: Global, name: [u8; 32], worth: i64, number: u64) -> Result<Session, Memory> {
    spend(alloc, name, worth, &[4, 6], number)
}

fn name_of(rt: &impl Abort, key: Key) -> [u8; 32] {
    match key {
        Key::Object(name) => name,
        Key::Dummy(_, _) => panic!(rt; "a dummy"),
    }
}

#[test]
fn a_full_book_takes_no_vote(rt: HostRuntime) -> Result<(), Fail> {
    let alloc = rt.alloc();
    let (key, mut table) = one_coin(&rt, alloc)?;
    for number in 0..1025 {
        let wrong = split(alloc, name_of(&rt, key), 11, number)?;
        assert!(rt; prepared(&rt, alloc, &mut table, &wrong)? == Vote::Abort);
    }
    let session = split(alloc, name_of(&rt, key), 10, 0)?;
    assert!(rt; prepared(&rt, alloc, &mut table, &session)? == Vote::Abort);
    let row = table.record(&key).expect(&rt, "a record");
    assert!(rt; row.book.len() == 1024 && matches!(&row.state, State::Active(_)));
    Ok(())
}

/// The book of the coin has so many places, and holds no more.
fn has_places(rt: &impl Abort, table: &Table, key: Key, count: usize) -> Result<(), Fail> {
    let row = table.record(&key).expect(rt, "a record");
    assert!(rt; row.book.len() == count && matches!(&row.state, State::Active(_)));
    Ok(())
}

#[test]
fn the_last_place_of_a_book_goes_to_an_abort(rt: HostRuntime) -> Result<(), Fail> {
    let alloc = rt.alloc();
    let (key, mut table) = one_coin(&rt, alloc)?;
    for number in 0..1023 {
        let wrong = split(alloc, name_of(&rt, key), 11, number)?;
        assert!(rt; prepared(&rt, alloc, &mut table, &wrong)? == Vote::Abort);
    }
    let right = split(alloc, name_of(&rt, key), 10, 0)?;
    assert!(rt; prepared(&rt, alloc, &mut table, &right)? == Vote::Commit);
    assert!(rt; decided(&rt, alloc, &mut table, &right, Vote::Abort)? == Effect::Aborted);
    has_places(&rt, &table, key, 1024)?;
    let new = split(alloc, name_of(&rt, key), 10, 1)?;
    assert!(rt; prepared(&rt, alloc, &mut table, &new)? == Vote::Abort);
    has_places(&rt, &table, key, 1024)
}

#[test]
fn a_key_stands_twice(rt: HostRuntime) -> Result<(), Fail> {
    let alloc = rt.alloc();
    let objects = [
        (Key::Object([1; 32]), coin(alloc, 1)?),
        (Key::Object([2; 32]), coin(alloc, 2)?),
        (Key::Object([1; 32]), coin(alloc, 3)?),
    ];
    assert!(rt; objects[0].1.fits() && objects[1].1.fits() && objects[2].1.fits());
    match Table::genesis(alloc, config(&rt), 0, &objects) {
        Ok(_) => panic!(rt; "no key was found"),
        Err(error) => assert!(rt; error == TableError::Duplicate(Key::Object([1; 32]))),
    }
    Ok(())
}

//! Coins of one shard, and sessions that spend them.
ghost use Rattle.std.specs.Prelude.{All, IfOk, OnOk};
ghost use Rattle.cs_tx_value.specs.Object.{ObjectFits};

use cs_base::{Config, Key, Memory};
use cs_check::table_root;
use cs_table::{Table, TableError};
use cs_test_samples::{Transfer, coin};
use cs_tx::{Digest, Encoded, Object, Session, Vote, genesis_key, session_digest};
use std::alloc::Global;

fn add_coin(alloc: Global, objects: &mut Vec<(Key, Object)>, place: u32) -> Result<(), Memory>
    requires { All (λ item. ObjectFits item.1) objects.old.items }
    ensures { OnOk result (All (λ item. ObjectFits item.1) objects.new.items) }
{
    let object = coin(alloc, i64::from(place))?;
    if !object.fits() {
        return Ok(());
    }
    let key = genesis_key(alloc, place, &object)?;
    objects.push((key, object))?;
    Ok(())
}

/// So many coins, each under its key.
pub fn coins(alloc: Global, count: u32) -> Result<Vec<(Key, Object)>, Memory>
    ensures { IfOk result (λ objects. All (λ item. ObjectFits item.1) objects.items) }
{
    let mut objects = Vec::new(alloc);
    for place in 0..count {
        add_coin(alloc, &mut objects, place)?;
    }
    Ok(objects)
}

fn again(alloc: Global, object: &Object) -> Result<Object, Memory> {
    if object.fits() {
        object.copy(alloc)
    } else {
        coin(alloc, 0)
    }
}

/// A session that spends a coin and makes it anew.
pub fn session(alloc: Global, name: Digest, object: &Object) -> Result<Session, Memory> {
    let mut transfer = Transfer::new(alloc);
    transfer.inputs.push((name, again(alloc, object)?))?;
    transfer.outputs.push(again(alloc, object)?)?;
    transfer.into_session(alloc, 1)
}

fn prepare(alloc: Global, table: &mut Table, session: &Session) -> Result<(), Memory> {
    if session.fits() && table.has_anchor(alloc, session)? {
        let digest = session_digest(alloc, session)?;
        table.prepare(alloc, session, &digest)?;
    }
    Ok(())
}

fn decide(alloc: Global, table: &mut Table, session: &Session) -> Result<(), Memory> {
    if session.fits() && table.has_anchor(alloc, session)? {
        let digest = session_digest(alloc, session)?;
        table.decide(alloc, session, &digest, Vote::Commit)?;
    }
    Ok(())
}

/// Prepares a session so many times, and then decides it.
fn spend(alloc: Global, table: &mut Table, session: &Session, rounds: u32) -> Result<(), Memory> {
    for _ in 0..rounds {
        prepare(alloc, table, session)?;
    }
    decide(alloc, table, session)
}

fn spend_coin(
    alloc: Global,
    table: &mut Table,
    item: &(Key, Object),
    rounds: u32,
) -> Result<(), Memory> {
    if let Key::Object(name) = &item.0 {
        let session = session(alloc, *name, &item.1)?;
        spend(alloc, table, &session, rounds)?;
    }
    Ok(())
}

/// The table of a shard of these coins.
pub fn shard(alloc: Global, objects: &[(Key, Object)]) -> Result<Option<Table>, Memory>
    requires { All (λ item. ObjectFits item.1) objects.now }
{
    let config = match Config::new(1, 0, 0) {
        Ok(config) => config,
        Err(_) => return Ok(None),
    };
    match Table::genesis(alloc, config, 0, objects) {
        Ok(table) => Ok(Some(table)),
        Err(TableError::Duplicate(_)) => Ok(None),
        Err(TableError::Memory) => Err(Memory),
    }
}

/// Makes the shard, and so many times the root over its records, as each checkpoint does: how many
/// roots were made.
pub fn root_often(alloc: Global, count: u32, rounds: u32) -> Result<u32, Memory> {
    let objects = coins(alloc, count)?;
    let Some(table) = shard(alloc, &objects)? else {
        return Ok(0);
    };
    for _ in 0..rounds {
        table_root(alloc, &table)?;
    }
    Ok(rounds)
}

/// Makes the shard, and spends coins that lie at equal distances.
pub fn run(alloc: Global, count: u32, sessions: u32, rounds: u32) -> Result<(), Memory> {
    let objects = coins(alloc, count)?;
    let Some(mut table) = shard(alloc, &objects)? else {
        return Ok(());
    };
    let step = (objects.len() / (sessions as usize).max(1)).max(1);
    for (place, item) in objects.iter().enumerate() {
        if place % step == 0 {
            spend_coin(alloc, &mut table, item, rounds)?;
        }
    }
    Ok(())
}

//! Slots of one shard that are executed, and closed in the chain of its checkpoints.
ghost use Rattle.std.specs.Prelude.{◌<◌, All};
ghost use Rattle.cs_tx_value.specs.Object.{ObjectFits};

use crate::table::{coins, session};
use cs_base::{Config, Key, Memory, NodeId};
use cs_check_rules::Leaf;
use cs_sbac::Sbac;
use cs_table::{Table, TableError};
use cs_tx::{Action, Effect, Encoded, Object, Session, Versioned, Vote};
use std::alloc::Global;

/// What is measured.
#[derive(Clone, Copy, Drop)]
pub struct Measured {
    /// The records of the table at the start.
    pub objects: u32,
    pub slots: u32,
    pub keys: Keys,
    pub extent: Extent,
}

/// Which keys the slots touch.
#[derive(Clone, Copy)]
pub enum Keys {
    /// Each coin is prepared alone, which touches its key and no other.
    Old,
    /// Each coin is prepared, and decided in the slot behind, which makes a new one.
    New,
}

/// What is done of each slot.
#[derive(Clone, Copy)]
pub enum Extent {
    /// It is executed alone, which is what to take off.
    Executed,
    /// It is executed, and closed.
    Closed,
}

// The node of a shard of one, which has these coins.
fn node(alloc: Global, objects: &[(Key, Object)]) -> Result<Option<Sbac>, Memory>
    requires { All (λ item. ObjectFits item.1) objects.now }
{
    let Ok(config) = Config::new(1, 0, 0) else {
        return Ok(None);
    };
    let me = NodeId { shard: 0, index: 0 };
    if !config.has_node(me) {
        return Ok(None);
    }
    match Table::genesis(alloc, config, 0, objects) {
        Ok(table) => Ok(Some(Sbac::new(alloc, config, me, table)?)),
        Err(TableError::Duplicate(_)) => Ok(None),
        Err(TableError::Memory) => Err(Memory),
    }
}

// Executes an action as the next slot, and closes it if so wished. It answers whether all was done.
fn fill(alloc: Global, sbac: &mut Sbac, action: Action, extent: Extent) -> Result<bool, Memory> {
    if !action.fits() {
        return Ok(false);
    }
    let outcome = sbac.execute(alloc, &action)?;
    match extent {
        Extent::Executed => Ok(true),
        Extent::Closed => close(alloc, sbac, action, outcome.effect),
    }
}

// Closes the next slot.
fn close(alloc: Global, sbac: &mut Sbac, action: Action, effect: Effect) -> Result<bool, Memory> {
    let leaf = Leaf {
        slot: sbac.slots(),
        place: 0,
        action,
        result: effect,
    };
    if !leaf.fits(1) || leaf.slot != sbac.slots() {
        return Ok(false);
    }
    sbac.close(alloc, &leaf)?;
    sbac.forget_touched();
    Ok(true)
}

// The actions that spend a coin: so many as are measured of one.
fn spend(
    alloc: Global,
    sbac: &mut Sbac,
    session: Session,
    measured: &Measured,
) -> Result<bool, Memory> {
    if !session.fits() {
        return Ok(false);
    }
    let copied = session.copy(alloc)?;
    let done = fill(alloc, sbac, Action::Prepare(copied), measured.extent)?;
    match measured.keys {
        Keys::New if done => {
            let decision = Action::Decide(Vote::Commit, session);
            fill(alloc, sbac, decision, measured.extent)
        }
        Keys::New | Keys::Old => Ok(done),
    }
}

// How many slots touch one coin.
fn slots_of_a_coin(keys: Keys) -> u32
    ensures { 0 < result }
{
    match keys {
        Keys::Old => 1,
        Keys::New => 2,
    }
}

/// Makes the shard, and fills its slots. It answers whether each was filled.
pub fn run(alloc: Global, measured: &Measured) -> Result<bool, Memory> {
    let objects = coins(alloc, measured.objects)?;
    let Some(mut sbac) = node(alloc, &objects)? else {
        return Ok(false);
    };
    let spent = (measured.slots / slots_of_a_coin(measured.keys)) as usize;
    let mut all = spent <= objects.len();
    for item in objects.iter().take(spent) {
        if let Key::Object(name) = &item.0 {
            let session = session(alloc, *name, &item.1)?;
            all = spend(alloc, &mut sbac, session, measured)? && all;
        }
    }
    Ok(all)
}

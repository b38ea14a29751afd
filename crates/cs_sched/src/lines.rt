//! What each line says.
ghost use Rattle.std.specs.Prelude.{◌≡◌, ◌<◌, IfOk};
ghost use Rattle.cs_base.specs.Lines.{views};
ghost use Rattle.cs_base.specs.declared.limits.TheConstants.{MOST_GENESIS};
ghost use Rattle.cs_tx_value.specs.Object.{ObjectFits};
ghost use Rattle.cs_text.specs.Reading.{GivesStep};
ghost use Rattle.cs_sched.specs.Said.{shards_said, faulty_said, dummies_said, liar_said, contract_said, object_said};

use crate::Schedule;
use crate::limits::MOST_CONTRACTS;
use crate::naming::read_liar;
use crate::values::{config, read_contract, read_object};
use cs_base::{Config, MOST_GENESIS, NodeId, Sequence};
use cs_text::{Cause, LineError, only_field, only_number};
use cs_tx::Object;
use std::alloc::Global;

/// The configuration, with the number of shards of a line.
pub fn read_shards(now: Config, fields: &[&[u8]]) -> Result<Config, Cause>
    ensures { result ≡ shards_said now (views fields.now) }
{
    let shards = only_number(fields)?;
    config(shards, u64::from(now.f), u64::from(now.dummies))
}

/// The configuration, with the number of liars of a shard.
pub fn read_faulty(now: Config, fields: &[&[u8]]) -> Result<Config, Cause>
    ensures { result ≡ faulty_said now (views fields.now) }
{
    let faulty = only_number(fields)?;
    config(u64::from(now.shards), faulty, u64::from(now.dummies))
}

/// The configuration, with the number of dummies of a shard.
pub fn read_dummies(now: Config, fields: &[&[u8]]) -> Result<Config, Cause>
    ensures { result ≡ dummies_said now (views fields.now) }
{
    let dummies = only_number(fields)?;
    config(u64::from(now.shards), u64::from(now.f), dummies)
}

pub(crate) fn read_liar_line(schedule: &Schedule, fields: &[&[u8]]) -> Result<NodeId, Cause>
    ensures { result ≡ liar_said schedule.now (views fields.now) }
{
    let field = only_field(fields)?;
    read_liar(&schedule.config, schedule.liars.as_slice(), field)
}

/// The text of a contract, where so many stand before it.
pub fn read_contract_line(
    alloc: Global,
    place: usize,
    fields: &[&[u8]],
) -> Result<Sequence<u8>, LineError>
    ensures { GivesStep result (contract_said place (views fields.now)) }
{
    let field = only_field(fields)?;
    if place >= MOST_CONTRACTS {
        return Err(LineError::Bad(Cause::Limit));
    }
    read_contract(alloc, field)
}

/// An object, where so many stand before it.
pub fn read_object_line(alloc: Global, place: usize, fields: &[&[u8]]) -> Result<Object, LineError>
    ensures value { GivesStep result (object_said place (views fields.now)) }
    ensures fits { IfOk result ObjectFits }
    ensures place { IfOk result (λ _. place < MOST_GENESIS) }
{
    let field = only_field(fields)?;
    if place >= MOST_GENESIS {
        return Err(LineError::Bad(Cause::Limit));
    }
    read_object(alloc, field)
}

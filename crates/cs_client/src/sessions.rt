//! The session of a client, and the shards that need a dummy for it.
ghost use Rattle.std.specs.Prelude.{◌≡◌, IfOk};
ghost use Rattle.cs_tx_types.specs.Session.{SessionFits};
ghost use Rattle.cs_tx_types.specs.Transaction.{TxFits};
ghost use Rattle.cs_tx.specs.Uses.{inputs_of, names, is_among};
ghost use Rattle.cs_client.specs.Sessions.{has_input, session_without_dummies, with_dummies, bare_shards};

use cs_base::{Config, Key, Memory, Sequence, shard_of};
use cs_tx::concerned;
use cs_tx_types::{Session, Tx};
use cs_tx_value::{Digest, Object};
use std::alloc::Global;

/// Whether a transaction uses up an object.
pub fn has_input(tx: &Tx) -> bool
    ensures { result ≡ has_input tx.now }
{
    tx.traces
        .as_slice()
        .iter()
        .any(|trace| trace.inputs.len() > 0)
}

/// The session of a transaction that lacks its dummies.
pub fn bare(alloc: Global, tx: Tx, number: u64) -> Session
    requires { TxFits tx }
    ensures session { result ≡ session_without_dummies tx number }
    ensures fits { SessionFits result }
{
    Session {
        tx,
        number,
        dummies: Sequence::new(alloc),
    }
}

/// The session with its dummies.
pub fn with_dummies(session: Session, dummies: Sequence<(u16, u64)>) -> Session
    ensures { result ≡ with_dummies session dummies }
{
    Session {
        tx: session.tx,
        number: session.number,
        dummies,
    }
}

// Whether one of the objects lies in the shard.
fn is_one_in(config: &Config, shard: u16, items: &[(Digest, Object)]) -> bool
    ensures { result ≡ is_among config.now shard (names items.now) }
{
    for item in items {
        if shard_of(config, &Key::Object(item.0)) == shard {
            return true;
        }
    }
    false
}

// Whether the transaction uses up an object of the shard.
fn is_served(config: &Config, tx: &Tx, shard: u16) -> bool
    ensures { result ≡ is_among config.now shard (names (inputs_of tx.now)) }
{
    for trace in tx.traces.as_slice() {
        if is_one_in(config, shard, trace.inputs.as_slice()) {
            return true;
        }
    }
    false
}

/// The concerned shards in which a session has no input.
pub fn bare_shards(
    alloc: Global,
    config: &Config,
    session: &Session,
) -> Result<Sequence<u16>, Memory>
    requires { SessionFits session.now }
    ensures { IfOk result (λ shards. shards ≡ bare_shards config.now session.now) }
{
    let mut bare = Sequence::new(alloc);
    for shard in concerned(alloc, session, config)? {
        if !is_served(config, &session.tx, shard) {
            bare.push(shard)?;
        }
    }
    Ok(bare)
}

//! The tests of a session that need no configuration.
ghost use Rattle.std.specs.Prelude.{◌≡◌, None, Some, IfOk};
ghost use Rattle.cs_tx_types.specs.Transaction.{TxFits};
ghost use Rattle.cs_tx_types.specs.Session.{SessionFits};
ghost use Rattle.cs_transact.specs.Refusing.{Unless};
ghost use Rattle.cs_transact.specs.Formed.{first_failed, told_refusal};
ghost use Rattle.cs_transact.specs.Says.{PassesTests};
ghost use Rattle.cs_transact.specs.Telling.{bare_session};

use crate::refusal::{Refusal, TextError};
use cs_base::{Config, Key, Memory, Sequence};
use cs_tx::{Malformed, well_formed};
use cs_tx_types::{Session, Tx};
use std::alloc::Global;

// One shard holds every key, so a session with an input needs no dummy.
const ONE_SHARD: Config = Config {
    shards: 1,
    f: 0,
    dummies: 0,
    version: 1,
};

// What is told of a session that isn't well formed, but for its dummies.
fn told_refusal(malformed: Malformed) -> Option<Refusal>
    ensures { result ≡ told_refusal malformed }
{
    match malformed {
        Malformed::NoInput => Some(Refusal::NoInput),
        Malformed::TwiceUsed(Key::Object(name)) => Some(Refusal::Twice(name)),
        Malformed::TwiceUsed(Key::Dummy(..)) => None,
        Malformed::Foreign(trace) => Some(Refusal::Foreign(trace)),
        Malformed::Dep(trace) => Some(Refusal::Dep(trace)),
        Malformed::Dummies => None,
        Malformed::Memory => None,
    }
}

// The first of the tests that the transaction of a session fails.
fn first_failed(alloc: Global, session: &Session) -> Result<Option<Refusal>, Memory>
    requires { SessionFits session.now }
    ensures { IfOk result (λ failed. failed ≡ first_failed session.now.tx) }
{
    match well_formed(alloc, session, &ONE_SHARD) {
        Ok(()) => Ok(None),
        Err(Malformed::Memory) => Err(Memory),
        Err(malformed) => Ok(told_refusal(malformed)),
    }
}

/// The session of a number, without dummies.
pub(crate) fn bare(alloc: Global, tx: Tx, number: u64) -> Session
    requires { TxFits tx }
    ensures session { result ≡ bare_session number tx }
    ensures fits { SessionFits result }
{
    Session {
        tx,
        number,
        dummies: Sequence::new(alloc),
    }
}

/// The transaction, unless it fails one of the tests.
pub(crate) fn formed(alloc: Global, tx: Tx) -> Result<Tx, TextError>
    requires { TxFits tx }
    ensures passes { Unless (PassesTests tx) result }
    ensures fits { IfOk result TxFits }
{
    let session = bare(alloc, tx, 0);
    let failed = first_failed(alloc, &session)?;
    let Session {
        tx,
        number: _number,
        dummies: _dummies,
    } = session;
    match failed {
        Some(refusal) => Err(TextError::Refused(refusal)),
        None => Ok(tx),
    }
}

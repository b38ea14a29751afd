//! What the setup of a deployment says of a session.
ghost use Rattle.std.specs.Prelude.{◌≡◌, true, IfOk, is_none, is_some};
ghost use Rattle.cs_tx_types.specs.Session.{SessionFits, ActionFits, session_in};
ghost use Rattle.cs_tx.specs.Uses.{anchor_of, concerned_shards};
ghost use Rattle.cs_tx.specs.WellFormed.{IsWellFormed, fault_of};
ghost use Rattle.cs_node_state.specs.Setup.{concerned, is_fit};
ghost use Rattle.cs_node_pool.specs.Deployed.{AtEverySetup};

use cs_base::{Config, Memory};
use cs_tx::{Action, Malformed, Session, anchor, concerned, well_formed};
use std::alloc::Global;

/// The shards that a session concerns, in rising order. One that is known to be well formed isn't
/// hashed for them.
pub fn concerned_shards(
    alloc: Global,
    config: &Config,
    session: &Session,
    known: bool,
) -> Result<Vec<u16>, Memory>
    requires fits { SessionFits session.now }
    requires known { known ≡ true → IsWellFormed config.now session.now }
    ensures { AtEverySetup config.now (λ setup.
        IfOk result (λ shards. shards.items ≡ concerned setup session.now)) }
{
    if known {
        let shards = formed_shards(alloc, config, session)?;
        return Ok(shards);
    }
    let shards = concerned(alloc, session, config)?;
    Ok(shards)
}

/// The same of a session that is well formed: the shards of its inputs and dummies, so nothing is
/// hashed.
pub fn formed_shards(alloc: Global, config: &Config, session: &Session) -> Result<Vec<u16>, Memory>
    requires { IsWellFormed config.now session.now }
    ensures { IfOk result (λ shards. shards.items ≡ concerned_shards config.now session.now) }
{
    let mut shards = Vec::new(alloc);
    for shard in 0..config.shards {
        if anchor(session, config, shard).is_some() {
            shards.push(shard)?;
        }
    }
    Ok(shards)
}

/// Whether a session is well formed. One that is known to be isn't hashed for it.
fn is_well_formed(
    alloc: Global,
    config: &Config,
    session: &Session,
    known: bool,
) -> Result<bool, Memory>
    requires fits { SessionFits session.now }
    requires known { known ≡ true → IsWellFormed config.now session.now }
    ensures { IfOk result (λ yes. yes ≡ is_none (fault_of config.now session.now)) }
{
    if known {
        return Ok(true);
    }
    match well_formed(alloc, session, config) {
        Ok(()) => Ok(true),
        Err(Malformed::Memory) => Err(Memory),
        Err(
            Malformed::NoInput
            | Malformed::TwiceUsed(_)
            | Malformed::Foreign(_)
            | Malformed::Dep(_)
            | Malformed::Dummies,
        ) => Ok(false),
    }
}

/// Whether a session is well formed, as it may be known to be, and concerns the shard.
pub fn is_fit(
    alloc: Global,
    config: &Config,
    shard: u16,
    session: &Session,
    known: bool,
) -> Result<bool, Memory>
    requires fits { SessionFits session.now }
    requires known { known ≡ true → IsWellFormed config.now session.now }
    ensures fit { AtEverySetup config.now (λ setup.
        IfOk result (λ fit. fit ≡ is_fit setup shard session.now)) }
    // Then the shard has a key of the session, by which it is held.
    ensures anchored { IfOk result (λ fit.
        fit ≡ true → is_some (anchor_of config.now session.now shard) ≡ true) }
{
    if !is_well_formed(alloc, config, session, known)? {
        return Ok(false);
    }
    Ok(anchor(session, config, shard).is_some())
}

/// The same of the session of an action.
pub fn is_fit_entry(
    alloc: Global,
    config: &Config,
    shard: u16,
    entry: &Action,
    known: bool,
) -> Result<bool, Memory>
    requires fits { ActionFits entry.now }
    requires known { known ≡ true → IsWellFormed config.now (session_in entry.now) }
    ensures fit { AtEverySetup config.now (λ setup.
        IfOk result (λ fit. fit ≡ is_fit setup shard (session_in entry.now))) }
    ensures anchored { IfOk result (λ fit.
        fit ≡ true → is_some (anchor_of config.now (session_in entry.now) shard) ≡ true) }
{
    match entry {
        Action::Prepare(session) => is_fit(alloc, config, shard, session, known),
        Action::Decide(_, session) => is_fit(alloc, config, shard, session, known),
    }
}

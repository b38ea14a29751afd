//! Whether a session fits a shard.
ghost use Rattle.std.specs.Prelude.{◌≡◌, IfOk, true, is_none, is_some};
ghost use Rattle.cs_tx_types.specs.Session.{SessionFits};
ghost use Rattle.cs_tx.specs.Uses.{anchor_of};
ghost use Rattle.cs_tx.specs.WellFormed.{fault_of};
ghost use Rattle.cs_node_state.specs.Setup.{is_fit};
ghost use Rattle.cs_node_pool.specs.Deployed.{AtEverySetup};

use cs_base::{Config, Memory};
use cs_tx::{Malformed, Session, anchor, well_formed};
use std::alloc::Global;

fn is_well_formed(alloc: Global, config: &Config, session: &Session) -> Result<bool, Memory>
    requires { SessionFits session.now }
    ensures { IfOk result (λ yes. yes ≡ is_none (fault_of config.now session.now)) }
{
    match well_formed(alloc, session, config) {
        Ok(()) => Ok(true),
        Err(Malformed::Memory) => Err(Memory),
        Err(
            Malformed::NoInput
            | Malformed::TwiceUsed(_)
            | Malformed::Foreign(_)
            | Malformed::Dep(_)
            | Malformed::Dummies,
        ) => Ok(false),
    }
}

/// Whether a session is well formed and concerns the shard.
pub(crate) fn is_fit(
    alloc: Global,
    config: &Config,
    shard: u16,
    session: &Session,
) -> Result<bool, Memory>
    requires { SessionFits session.now }
    ensures fit { AtEverySetup config.now (λ setup.
        IfOk result (λ fit. fit ≡ is_fit setup shard session.now)) }
    // Then the shard has a key of the session, by which it is held.
    ensures anchored { IfOk result (λ fit.
        fit ≡ true → is_some (anchor_of config.now session.now shard) ≡ true) }
{
    if !is_well_formed(alloc, config, session)? {
        return Ok(false);
    }
    Ok(anchor(session, config, shard).is_some())
}

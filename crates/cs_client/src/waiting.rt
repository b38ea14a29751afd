//! What a client waits for.
ghost use Rattle.std.specs.Prelude.{◌≡◌, IfOk};
ghost use Rattle.cs_client.specs.Waits.{waiting_kept};

use crate::beliefs::Beliefs;
use crate::errand::Errand;
use crate::phases::Phase;
use cs_base::{Memory, Sequence};
use cs_tx_value::Digest;
use std::alloc::Global;

/// What a client waits for in its phase.
#[derive(Drop)]
pub enum Waiting {
    /// Objects of its call, of these names.
    Objects(Sequence<Digest>),
    /// Dummies of these shards.
    Dummies(Sequence<u16>),
    /// What has become of its session.
    Answers,
    /// Nothing: there is nothing to do.
    Nothing,
}

/// What is waited for in a phase.
pub fn waiting_in(
    alloc: Global,
    errand: &Errand,
    beliefs: &Beliefs,
    phase: &Phase,
) -> Result<Waiting, Memory>
    ensures { IfOk result (λ waiting.
        waiting ≡ waiting_kept errand.now.config.f beliefs.now phase.now) }
{
    match phase {
        Phase::Asking => {
            let names = beliefs.unsettled(alloc)?;
            Ok(Waiting::Objects(names))
        }
        Phase::Wanting(wanted) => {
            let f = errand.config.f;
            let shards = beliefs.lacking(alloc, f, wanted.shards.as_slice())?;
            Ok(Waiting::Dummies(shards))
        }
        Phase::Submitting(_) => Ok(Waiting::Answers),
        Phase::Idle => Ok(Waiting::Nothing),
    }
}

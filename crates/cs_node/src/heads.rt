//! What other members tell of their checkpoints.
ghost use Rattle.std.specs.Prelude.{OnOk, Bool};
ghost use Rattle.cs_tx_types.specs.declared.transaction.Tx.{Tx};
ghost use Rattle.cs_node_rules.specs.Signs.{head_signs};
ghost use Rattle.cs_node.specs.Signing.{Does};

use crate::draft::Draft;
use crate::members::is_other_member;
use cs_base::{Memory, NodeId};
use cs_check_rules::Checkpoint;
use cs_node_rules::Cause;
use cs_sbac::Sbac;

/// Another member tells a checkpoint: the last one of each is kept.
pub fn hear_head(
    sbac: &mut Sbac,
    draft: &mut Draft,
    sender: NodeId,
    checkpoint: Checkpoint,
) -> Result<(), Memory>
    ensures { (approves : Tx → Bool) →
        Does approves sbac.old sbac.new draft.old draft.new result
        (λ setup b. head_signs setup sbac.old.me b sender checkpoint) }
{
    if !is_other_member(sbac.config(), sbac.me(), sender) {
        return draft.drop_it(Cause::Role);
    }
    if !sbac.keep(sender.index, checkpoint)? {
        return draft.drop_it(Cause::Repeat);
    }
    Ok(())
}

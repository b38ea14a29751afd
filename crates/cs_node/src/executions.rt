//! Execution of what was chosen.
ghost use Rattle.std.specs.Prelude.{◌≡◌, IfOk, IfSome, Bool};
ghost use Rattle.cs_tx_types.specs.declared.transaction.Tx.{Tx};
ghost use Rattle.cs_tx_types.specs.Entry.{EntryFits};
ghost use Rattle.cs_tx_types.specs.Session.{ActionFits};
ghost use Rattle.cs_tx_types.specs.declared.limits.TheConstants.{COVERED};
ghost use Rattle.cs_node_rules.specs.Signs.{execution_signs};
ghost use Rattle.cs_node_rules.specs.Deployment.{entry_in};
ghost use Rattle.cs_node.specs.Executions.{RunsOne};
ghost use Rattle.cs_node.specs.Signing.{Does};

use crate::draft::Draft;
use crate::sending::{say_made, say_vote};
use cs_base::{Memory, Version};
use cs_check_rules::{Checkpoint, Leaf};
use cs_node_wire::{read_entry, void_entry};
use cs_order::Proposed;
use cs_sbac::Sbac;
use cs_tx::{Action, Entry};
use std::alloc::Global;

/// What was chosen. Bytes that are no entry stand for one that changes nothing.
fn chosen(alloc: Global, proposed: &Proposed, version: Version) -> Result<Entry, Memory>
    ensures entry { IfOk result (λ entry. entry ≡ entry_in version proposed.now) }
    ensures fits { IfOk result (EntryFits version) }
{
    match read_entry(alloc, proposed, version)? {
        Some(entry) => Ok(entry),
        None => void_entry(alloc),
    }
}

/// Executes an action in its place of a slot, notes what that came to, says the node's vote to all
/// whom it concerns, and answers the checkpoint that the log made with it, if it made one.
fn execute_action(
    alloc: Global,
    sbac: &mut Sbac,
    draft: &mut Draft,
    slot: u64,
    place: u8,
    action: Action,
) -> Result<Option<Checkpoint>, Memory>
    requires { ActionFits action }
    ensures runs { (approves : Tx → Bool) →
        RunsOne approves sbac.old sbac.new draft.old draft.new slot place action result }
    ensures covers { IfOk result (λ made.
        IfSome made (λ checkpoint. checkpoint.leaves ≡ COVERED)) }
{
    let outcome = sbac.execute(alloc, &action)?;
    say_vote(alloc, sbac, draft, action.session(), outcome.voted)?;
    let leaf = Leaf {
        slot: sbac.slots(),
        place: 0,
        action,
        result: outcome.effect,
    };
    let made = sbac.close(alloc, &leaf)?;
    sbac.forget_touched();
    draft.note_execution(slot, place, leaf.action, leaf.result)?;
    Ok(made)
}

/// Executes what was chosen in a slot, one action after the other. Every 16th slot makes a
/// checkpoint, which is told to the other members.
pub fn execute(
    alloc: Global,
    sbac: &mut Sbac,
    draft: &mut Draft,
    slot: u64,
    proposed: &Proposed,
) -> Result<(), Memory>
    ensures { (approves : Tx → Bool) →
        Does approves sbac.old sbac.new draft.old draft.new result
        (λ setup b. execution_signs setup sbac.old.me b slot (entry_in setup.version proposed.now)) }
{
    let entry = chosen(alloc, proposed, sbac.version())?;
    let mut place = 0;
    let mut made = None;
    for action in entry.actions.into_vec() {
        made = execute_action(alloc, sbac, draft, slot, place, action)?;
        place += 1;
    }
    say_made(alloc, sbac, draft, made)
}

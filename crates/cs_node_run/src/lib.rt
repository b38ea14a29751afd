//! What it takes to run a node: its start in the order among 3f+1 members, and the lines that are
//! printed of its executions and checkpoints.
#![tactic(auto)]

mod starting;

ghost use Rattle.std.specs.Prelude.{◌≡◌, IfOk, string_bytes};
ghost use Rattle.cs_tx_types.specs.Session.{ActionFits, session_in};
ghost use Rattle.cs_tx.specs.Digest.{digest_of_session};
ghost use Rattle.cs_node_rules.specs.Lines.{slot_line, effect_text, head_line};
ghost use Rattle.cs_table.specs.Effects.{effect_of};
ghost use Rattle.cs_tx.specs.Votes.{vote_of};
ghost use Rattle.cs_ledger.specs.Table.{Voted};

use cs_base::{Memory, NodeId, print_bytes};
use cs_node::Effect;
use cs_tx::{Action, Digest, Vote, session_digest};
pub use starting::start;
use std::alloc::Global;

/// The digest of the session of an entry.
pub fn digest_in(alloc: Global, entry: &Action) -> Result<Digest, Memory>
    requires { ActionFits entry.now }
    ensures { IfOk result (λ digest. digest ≡ digest_of_session (session_in entry.now)) }
{
    session_digest(alloc, entry.session())
}

/// The line of an execution of an entry, whose session has this digest.
pub fn slot_line(
    alloc: Global,
    me: NodeId,
    slot: u64,
    digest: &Digest,
    effect: Effect,
) -> Result<String, Memory>
    ensures { IfOk result (λ text. string_bytes text
        ≡ slot_line me slot digest.now (effect_of effect)) }
{
    let effect = effect_text(alloc, digest, effect)?;
    Ok(format!(in alloc; "node {me} slot {slot} {effect}\n")?)
}

/// The line of a checkpoint that a node made.
pub fn head_line(alloc: Global, me: NodeId, number: u64, head: &Digest) -> Result<String, Memory>
    ensures { IfOk result (λ text. string_bytes text ≡ head_line me number head.now) }
{
    let head = print_bytes(alloc, head.as_slice())?;
    Ok(format!(in alloc; "node {me} head {number} {head}\n")?)
}

// What an execution came to.
fn effect_text(alloc: Global, digest: &Digest, effect: Effect) -> Result<String, Memory>
    ensures { IfOk result (λ text. string_bytes text
        ≡ effect_text digest.now (effect_of effect)) }
{
    match effect {
        Effect::Voted(vote) => vote_text(alloc, digest, vote),
        Effect::Accepted => {
            let digest = print_bytes(alloc, digest.as_slice())?;
            Ok(format!(in alloc; "decide {digest} accepted")?)
        }
        Effect::Aborted => {
            let digest = print_bytes(alloc, digest.as_slice())?;
            Ok(format!(in alloc; "decide {digest} aborted")?)
        }
        Effect::Skipped => {
            let digest = print_bytes(alloc, digest.as_slice())?;
            Ok(format!(in alloc; "decide {digest} skipped")?)
        }
        Effect::Void => Ok(String::from_str(alloc, "void")?),
    }
}

fn vote_text(alloc: Global, digest: &Digest, vote: Vote) -> Result<String, Memory>
    ensures { IfOk result (λ text. string_bytes text
        ≡ effect_text digest.now (Voted (vote_of vote))) }
{
    let digest = print_bytes(alloc, digest.as_slice())?;
    Ok(match vote {
        Vote::Commit => format!(in alloc; "prepare {digest} commit")?,
        Vote::Abort => format!(in alloc; "prepare {digest} abort")?,
    })
}

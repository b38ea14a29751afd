//! What a node says of its own accord.
ghost use Rattle.std.specs.Prelude.{◌≡◌, ◌<◌, ◌∷◌, [], true, Some, IsSome, IfSome, IfOk, OnOk};
ghost use Rattle.cs_tx_types.specs.declared.vote.Vote.TheVariants.{Commit};
ghost use Rattle.cs_tx_types.specs.declared.limits.TheConstants.{COVERED};
ghost use Rattle.cs_tx_types.specs.Session.{SessionFits};
ghost use Rattle.cs_wire_message.specs.declared.message.Message.TheVariants as message;
ghost use Rattle.cs_wire_message.specs.Message.{IsSlot};
ghost use Rattle.cs_node_state.specs.Setup.{concerned};
ghost use Rattle.cs_node_rules.specs.Members.{others};
ghost use Rattle.cs_node_rules.specs.Signs.{sends, vote_signs, headed_signs, asked_again};
ghost use Rattle.cs_sbac.specs.Held.{IsFit};
ghost use Rattle.cs_node.specs.Notes.{TellsSigns};
ghost use Rattle.cs_node_pool.specs.Deployed.{AtEverySetup};

use crate::draft::Draft;
use crate::members::others;
use cs_base::{Memory, NodeId, Sequence};
use cs_check_rules::{Checkpoint, checkpoint_head};
use cs_sbac::Sbac;
use cs_tx::{Encoded, Session, Vote};
use cs_tx_types::checkpoint_fits;
use cs_wire_message::Message;
use std::alloc::Global;

/// All other nodes of the shards that a session concerns.
fn voters(alloc: Global, sbac: &Sbac, session: &Session) -> Result<Sequence<NodeId>, Memory>
    requires { SessionFits session.now }
    ensures { AtEverySetup sbac.now.config (λ setup.
        let all = others sbac.now.config.f sbac.now.me (concerned setup session.now) in
        IfOk result (λ names. names ≡ all)) }
{
    let shards = sbac.concerned(alloc, session)?;
    let names = others(alloc, sbac.config(), sbac.me(), shards.as_slice())?;
    Ok(names)
}

// The same of a fit session, which needn't be tested again.
fn voters_of_fit(alloc: Global, sbac: &Sbac, session: &Session) -> Result<Sequence<NodeId>, Memory>
    requires { IsFit sbac.now session.now }
    ensures { AtEverySetup sbac.now.config (λ setup.
        let all = others sbac.now.config.f sbac.now.me (concerned setup session.now) in
        IfOk result (λ names. names ≡ all)) }
{
    let shards = sbac.concerned_of_fit(alloc, session)?;
    let names = others(alloc, sbac.config(), sbac.me(), shards.as_slice())?;
    Ok(names)
}

/// Says the vote that the node gave on a session, if it gave one, to all others whom it concerns.
pub fn say_vote(
    alloc: Global,
    sbac: &Sbac,
    draft: &mut Draft,
    session: &Session,
    voted: Option<(Vote, bool)>,
) -> Result<(), Memory>
    requires fits { SessionFits session.now }
    // Only on a fit session is a vote given.
    requires fit { IsSome voted → IsFit sbac.now session.now }
    ensures { AtEverySetup sbac.now.config (λ setup.
        OnOk result (TellsSigns (vote_signs setup sbac.now.me session.now voted) draft.old draft.new)) }
{
    let Some((vote, asks)) = voted else {
        return Ok(());
    };
    let names = voters_of_fit(alloc, sbac, session)?;
    if names.is_empty() {
        return Ok(());
    }
    let session = session.copy(alloc)?;
    draft.say_to(
        names,
        Message::Voted {
            vote,
            asks,
            session,
        },
    )
}

// Asks all whom a locked session concerns for their votes. The node itself has voted commit.
fn ask_votes(alloc: Global, sbac: &Sbac, draft: &mut Draft, session: Session) -> Result<(), Memory>
    requires { SessionFits session }
    ensures { AtEverySetup sbac.now.config (λ setup.
        let signs = vote_signs setup sbac.now.me session (Some (Commit, true)) in
        OnOk result (TellsSigns signs draft.old draft.new)) }
{
    let names = voters(alloc, sbac, &session)?;
    draft.say_to(
        names,
        Message::Voted {
            vote: Vote::Commit,
            asks: true,
            session,
        },
    )
}

/// Asks again for the votes on all locked sessions.
pub fn ask_again(alloc: Global, sbac: &Sbac, draft: &mut Draft) -> Result<(), Memory>
    ensures { AtEverySetup sbac.now.config (λ setup.
        OnOk result (TellsSigns (asked_again setup sbac.now.me sbac.now.pool) draft.old draft.new)) }
{
    let sessions = sbac.locked(alloc)?;
    for session in sessions {
        ask_votes(alloc, sbac, draft, session)?;
    }
    Ok(())
}

/// Notes a checkpoint, if one was made, and tells it to the other members of the shard.
pub fn say_made(
    alloc: Global,
    sbac: &Sbac,
    draft: &mut Draft,
    made: Option<Checkpoint>,
) -> Result<(), Memory>
    requires { IfSome made (λ checkpoint. checkpoint.leaves ≡ COVERED) }
    ensures { AtEverySetup sbac.now.config (λ setup.
        OnOk result (TellsSigns (headed_signs setup sbac.now.me made) draft.old draft.new)) }
{
    let Some(checkpoint) = made else {
        return Ok(());
    };
    checkpoint_fits(&checkpoint);
    draft.note_head(checkpoint.number, checkpoint_head(&checkpoint))?;
    let me = sbac.me();
    let names = others(alloc, sbac.config(), me, &[me.shard])?;
    draft.say_to(names, Message::Head(checkpoint))
}

/// Asks the other members of the shard for what was chosen in a slot.
pub fn want(alloc: Global, sbac: &Sbac, draft: &mut Draft, slot: u64) -> Result<(), Memory>
    requires { IsSlot slot }
    ensures { let members = others sbac.now.config.f sbac.now.me (sbac.now.me.shard ∷ []) in
        OnOk result (TellsSigns (sends members (message.Want slot)) draft.old draft.new) }
{
    let me = sbac.me();
    let names = others(alloc, sbac.config(), me, &[me.shard])?;
    draft.say_to(names, Message::Want { slot })
}

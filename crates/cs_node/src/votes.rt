//! The votes of other nodes.
ghost use Rattle.std.specs.Prelude.{◌≡◌, ◌∷◌, [], None, OnOk};
ghost use Rattle.cs_tx_types.specs.Session.{SessionFits};
ghost use Rattle.cs_tx.specs.Digest.{digest_of_session};
ghost use Rattle.cs_node_rules.specs.declared.cause.Cause.TheVariants.{Denied, Full};
ghost use Rattle.cs_node_state.specs.Setup.{is_session_approved};
ghost use Rattle.cs_node_state.specs.Pool.{found, pool_has_room};
ghost use Rattle.cs_node_state.specs.Bench.{noted};
ghost use Rattle.cs_node_rules.specs.Signs.{Took, Entered as Enters, guarded, asking_signs, voted_signs};
ghost use Rattle.cs_sbac.specs.Held.{IsFit};
ghost use Rattle.cs_node.specs.Signing.{Does};

use crate::draft::Draft;
use cs_base::Memory;
use cs_docket::Docket;
use cs_node_rules::Cause;
use cs_node_state::Ballot;
use cs_sbac::{Counted, Entered, Sbac};
use cs_tx::{Digest, Judge, Session, session_digest};
use cs_wire_message::Message;
use std::alloc::Global;

// A session that is new enters with the vote, where it is approved and has room.
fn enter_voted<J: Judge + Drop>(
    alloc: Global,
    sbac: &mut Sbac,
    judge: &mut Docket<J>,
    draft: &mut Draft,
    ballot: Ballot,
    session: Session,
    digest: Digest,
) -> Result<(), Memory>
    requires fits { SessionFits session }
    requires formed { IsFit sbac.old session }
    requires named { digest ≡ digest_of_session session }
    requires new { found (digest_of_session session) sbac.old.pool ≡ None }
    ensures does { Does (J.is_approved judge.old) sbac.old sbac.new draft.old draft.new result
        (λ setup b. let signs = Took ballot.sender ballot.vote session ∷ Enters session ∷ [] in
        guarded (is_session_approved setup session) Denied (guarded (pool_has_room b.pool) Full signs)) }
    ensures judge { judge.new ≡ judge.old }
{
    if !judge.approves(alloc, &session.tx)? {
        return draft.drop_it(Cause::Denied);
    }
    match sbac.enter_voted(alloc, ballot.sender, session, digest, ballot.vote)? {
        Entered::New => Ok(()),
        Entered::Full => draft.drop_it(Cause::Full),
    }
}

// A vote on a session that isn't in the pool: one that asks is answered by the vote on record, or
// the session enters.
fn answer_vote<J: Judge + Drop>(
    alloc: Global,
    sbac: &mut Sbac,
    judge: &mut Docket<J>,
    draft: &mut Draft,
    ballot: Ballot,
    asks: bool,
    session: Session,
    digest: Digest,
) -> Result<(), Memory>
    requires fits { SessionFits session }
    requires formed { IsFit sbac.old session }
    requires named { digest ≡ digest_of_session session }
    requires new { found (digest_of_session session) sbac.old.pool ≡ None }
    ensures does { Does (J.is_approved judge.old) sbac.old sbac.new draft.old draft.new result
        (λ setup b. let on_record = noted setup sbac.old.me.shard b.table session in
        asking_signs setup b ballot.sender ballot.vote asks session on_record) }
    ensures judge { judge.new ≡ judge.old }
{
    if !asks {
        return draft.drop_it(Cause::Unasked);
    }
    match sbac.noted(alloc, &session, &digest)? {
        Some(vote) => {
            let answer = Message::Voted {
                vote,
                asks: false,
                session,
            };
            draft.say(alloc, ballot.sender, answer)
        }
        None => enter_voted(alloc, sbac, judge, draft, ballot, session, digest),
    }
}

/// Another node votes on a session, and may ask for the vote of this one.
pub fn hear_vote<J: Judge + Drop>(
    alloc: Global,
    sbac: &mut Sbac,
    judge: &mut Docket<J>,
    draft: &mut Draft,
    ballot: Ballot,
    asks: bool,
    session: Session,
) -> Result<(), Memory>
    requires { SessionFits session }
    ensures does { Does (J.is_approved judge.old) sbac.old sbac.new draft.old draft.new result
        (λ setup b. voted_signs setup sbac.old.me.shard b ballot.sender ballot.vote asks session) }
    ensures judge { judge.new ≡ judge.old }
{
    if ballot.sender.is_client() {
        return draft.drop_it(Cause::Role);
    }
    let digest = session_digest(alloc, &session)?;
    if !sbac.is_fit_named(alloc, &session, &digest)? {
        return draft.drop_it(Cause::Malformed);
    }
    if !sbac.concerns(&session, ballot.sender.shard) {
        return draft.drop_it(Cause::Role);
    }
    match sbac.vote(ballot.sender, &digest, ballot.vote)? {
        Counted::Counted => Ok(()),
        Counted::Repeat => draft.drop_it(Cause::Repeat),
        Counted::NotPooled => {
            answer_vote(alloc, sbac, judge, draft, ballot, asks, session, digest)
        }
    }
}

//! Sessions that clients submit.
ghost use Rattle.std.specs.Prelude.{◌≡◌, OnOk};
ghost use Rattle.cs_tx_types.specs.Session.{SessionFits};
ghost use Rattle.cs_tx.specs.Digest.{digest_of_session};
ghost use Rattle.cs_node_rules.specs.Signs.{entering_signs, submit_signs};
ghost use Rattle.cs_sbac.specs.Held.{IsFit};
ghost use Rattle.cs_node.specs.Signing.{Does};

use crate::draft::Draft;
use cs_base::{Memory, NodeId};
use cs_docket::Docket;
use cs_node_rules::Cause;
use cs_sbac::{Entered, Sbac};
use cs_tx::{Digest, Judge, Session, session_digest};
use cs_wire_message::Message;
use std::alloc::Global;

// A session that is undecided waits in the pool, where it is new, approved, and has room.
fn enter<J: Judge + Drop>(
    alloc: Global,
    sbac: &mut Sbac,
    judge: &mut Docket<J>,
    draft: &mut Draft,
    session: Session,
    digest: Digest,
) -> Result<(), Memory>
    requires fits { SessionFits session }
    requires formed { IsFit sbac.old session }
    requires named { digest ≡ digest_of_session session }
    ensures does { Does (J.is_approved judge.old) sbac.old sbac.new draft.old draft.new result
        (λ setup b. entering_signs setup b session) }
    ensures judge { judge.new ≡ judge.old }
{
    if sbac.pooled(&digest)? {
        return draft.drop_it(Cause::Repeat);
    }
    if !judge.approves(alloc, &session.tx)? {
        return draft.drop_it(Cause::Denied);
    }
    match sbac.enter(alloc, session, digest)? {
        Entered::New => Ok(()),
        Entered::Full => draft.drop_it(Cause::Full),
    }
}

/// A client submits a session. The client of one that was decided is told so.
pub fn submit<J: Judge + Drop>(
    alloc: Global,
    sbac: &mut Sbac,
    judge: &mut Docket<J>,
    draft: &mut Draft,
    sender: NodeId,
    session: Session,
) -> Result<(), Memory>
    requires { SessionFits session }
    ensures does { Does (J.is_approved judge.old) sbac.old sbac.new draft.old draft.new result
        (λ setup b. submit_signs setup sbac.old.me.shard b sender session) }
    ensures judge { judge.new ≡ judge.old }
{
    if !sender.is_client() {
        return draft.drop_it(Cause::Role);
    }
    let digest = session_digest(alloc, &session)?;
    if !sbac.is_fit_named(alloc, &session, &digest)? {
        return draft.drop_it(Cause::Malformed);
    }
    match sbac.decided(alloc, &session, &digest)? {
        Some(accepted) => {
            let session = digest;
            draft.say(alloc, sender, Message::Decided { session, accepted })
        }
        None => enter(alloc, sbac, judge, draft, session, digest),
    }
}

//! The phases of a client, and how one follows on another.
ghost use Rattle.std.specs.Prelude.{◌≡◌, ◌++◌, true, Some, OnOk, IfOk, IfSome, option_copied};
ghost use Rattle.cs_tx.specs.Uses.{concerned_shards};
ghost use Rattle.cs_tx_types.specs.Session.{SessionFits};
ghost use Rattle.cs_tx_types.specs.Transaction.{TxFits};
ghost use Rattle.cs_client.specs.declared.phases.Phase.TheVariants as kept;
ghost use Rattle.cs_client.specs.Phases.{Asking, Wanting, wanting, after_method, first_phase, submitted};
ghost use Rattle.cs_client.specs.Sayings.{submits, again, outs_of_sayings};
ghost use Rattle.cs_client.specs.Kept.{ToldFits, ToldMarked};
ghost use Rattle.cs_client.specs.Seen.{phase_seen, WantedFits, SubmissionFits, PhaseFits, known_kept, dummies_kept, IsFresh, Enters, ClientMoves};

use crate::beliefs::Beliefs;
use crate::calling::run_on;
use crate::counting::{Voices, outcome, unheard};
use crate::errand::Errand;
use crate::error::{ClientError, ending_of};
use crate::known::Known;
use crate::nodes::nodes_of;
use crate::sayings::{ask_each, submit_to, want_dummies};
use crate::sessions::{bare, bare_shards, has_input, with_dummies};
use cs_base::{Memory, NodeId, Sequence};
use cs_tx::{concerned, session_digest};
use cs_tx_types::{Session, Tx};
use cs_tx_value::{Digest, Encoded};
use cs_wire::Out;
use std::alloc::Global;

/// A session that lacks its dummies, and the shards in which it needs one.
#[derive(Drop)]
pub struct Wanted {
    pub session: Session,
    pub shards: Sequence<u16>,
}

/// A session that is submitted, and what is heard of it.
#[derive(Drop)]
pub struct Submission {
    pub session: Session,
    pub digest: Digest,
    /// The nodes of the shards that the session concerns.
    pub nodes: Sequence<NodeId>,
    pub voices: Vec<Voices>,
}

/// A phase of a client.
#[derive(Drop)]
pub enum Phase {
    /// It asks for the objects of its call.
    Asking,
    /// It asks for dummies.
    Wanting(Wanted),
    /// It submits its session.
    Submitting(Submission),
    /// The transaction has no input, so there is nothing to do.
    Idle,
}

// The submission of a session, of which nothing was heard.
fn submission_of(alloc: Global, errand: &Errand, session: Session) -> Result<Submission, Memory>
    requires { SessionFits session }
    ensures session { IfOk result (λ submission. submission.session ≡ session) }
    ensures fits { IfOk result (λ submission. SubmissionFits errand.now.config submission) }
    ensures fresh { IfOk result (λ submission.
        IsFresh errand.now.config (kept.Submitting submission)) }
{
    let digest = session_digest(alloc, &session)?;
    let shards = concerned(alloc, &session, &errand.config)?;
    let nodes = nodes_of(alloc, &errand.config, &shards)?;
    let voices = unheard(alloc, &errand.config, &shards)?;
    Ok(Submission {
        session,
        digest,
        nodes,
        voices,
    })
}

/// The phase before the first input.
pub fn first(alloc: Global, errand: &Errand) -> Result<Phase, Memory>
    requires { IfSome errand.now.session SessionFits }
    ensures phase { IfOk result (λ phase. phase_seen phase ≡ first_phase errand.now.session) }
    ensures fits { IfOk result (PhaseFits errand.now.config) }
    ensures fresh { IfOk result (IsFresh errand.now.config) }
{
    match &errand.session {
        Some(session) => {
            let session = session.copy(alloc)?;
            let submission = submission_of(alloc, errand, session)?;
            Ok(Phase::Submitting(submission))
        }
        None => Ok(Phase::Asking),
    }
}

// Says the session to the nodes of all shards that it concerns.
fn submit(
    alloc: Global,
    errand: &Errand,
    submission: &Submission,
    outs: &mut Sequence<Out>,
) -> Result<(), Memory>
    requires { SubmissionFits errand.now.config submission.now }
    ensures { let sayings = submits errand.now submission.now.session in
        OnOk result (outs.new ≡ outs.old ++ outs_of_sayings errand.now.keys sayings) }
{
    let nodes = submission.nodes.as_slice();
    submit_to(alloc, &errand.keys, nodes, &submission.session, outs)
}

// Submits the session, where a dummy is believed in each shard that needs one.
fn provided(
    alloc: Global,
    errand: &Errand,
    beliefs: &Beliefs,
    wanted: Wanted,
    outs: &mut Sequence<Out>,
) -> Result<Phase, Memory>
    requires { WantedFits errand.now.config wanted }
    ensures enters { let dummy = dummies_kept errand.now beliefs.now in
        let next = wanting errand.now.config dummy wanted.session in
        IfOk result (λ phase.
        Enters errand.now (Wanting wanted.session) next phase outs.old outs.new) }
    ensures fresh { IfOk result (IsFresh errand.now.config) }
{
    let f = errand.config.f;
    let Some(dummies) = beliefs.dummies(alloc, f, wanted.shards.as_slice())? else {
        return Ok(Phase::Wanting(wanted));
    };
    let session = with_dummies(wanted.session, dummies);
    let submission = submission_of(alloc, errand, session)?;
    submit(alloc, errand, &submission, outs)?;
    Ok(Phase::Submitting(submission))
}

// Asks for the dummies of a transaction, where it has an input.
fn begun(
    alloc: Global,
    errand: &Errand,
    beliefs: &Beliefs,
    tx: Tx,
    outs: &mut Sequence<Out>,
) -> Result<Phase, Memory>
    requires { TxFits tx }
    ensures enters { let dummy = dummies_kept errand.now beliefs.now in
        let next = after_method errand.now dummy (Ok tx.traces) in
        IfOk result (λ phase. Enters errand.now Asking next phase outs.old outs.new) }
    ensures fresh { IfOk result (IsFresh errand.now.config) }
{
    if !has_input(&tx) {
        return Ok(Phase::Idle);
    }
    let session = bare(alloc, tx, errand.call.number);
    let shards = bare_shards(alloc, &errand.config, &session)?;
    want_dummies(
        alloc,
        &errand.config,
        &errand.keys,
        errand.dummy,
        shards.as_slice(),
        outs,
    )?;
    provided(alloc, errand, beliefs, Wanted { session, shards }, outs)
}

// Runs the method, where all objects of the call are believed.
fn called(
    alloc: Global,
    errand: &Errand,
    beliefs: &Beliefs,
    outs: &mut Sequence<Out>,
) -> Result<Phase, ClientError>
    requires fits { ToldFits errand.now.config beliefs.now }
    requires marked { ToldMarked errand.now.config.f beliefs.now }
    ensures { ClientMoves errand.now beliefs.now kept.Asking result outs.old outs.new }
{
    let Some(objects) = beliefs.ready(alloc, &errand.config)? else {
        return Ok(Phase::Asking);
    };
    match run_on(alloc, errand, objects) {
        Ok(tx) => Ok(begun(alloc, errand, beliefs, tx, outs)?),
        Err(cause) => Err(ending_of(cause)),
    }
}

/// The phase after this one as far as what is believed allows, with what is said on entering it and
/// those between.
pub fn moved(
    alloc: Global,
    errand: &Errand,
    beliefs: &Beliefs,
    phase: Phase,
    outs: &mut Sequence<Out>,
) -> Result<Phase, ClientError>
    requires fits { ToldFits errand.now.config beliefs.now }
    requires marked { ToldMarked errand.now.config.f beliefs.now }
    requires phase { PhaseFits errand.now.config phase }
    ensures { ClientMoves errand.now beliefs.now phase result outs.old outs.new }
{
    match phase {
        Phase::Asking => called(alloc, errand, beliefs, outs),
        Phase::Wanting(wanted) => Ok(provided(alloc, errand, beliefs, wanted, outs)?),
        Phase::Submitting(submission) => Ok(Phase::Submitting(submission)),
        Phase::Idle => Ok(Phase::Idle),
    }
}

/// The session that is submitted in a phase, if there is one.
pub fn submitted(phase: &Phase) -> Option<&Session>
    ensures { option_copied result ≡ submitted (phase_seen phase.now) }
{
    match phase {
        Phase::Submitting(submission) => Some(&submission.session),
        Phase::Asking | Phase::Wanting(_) | Phase::Idle => None,
    }
}

/// What is known in a phase.
pub fn known_in(errand: &Errand, phase: &Phase) -> Known
    ensures { result ≡ known_kept errand.now.config.f phase.now }
{
    match phase {
        Phase::Submitting(submission) => {
            outcome(errand.config.f, submission.digest, &submission.voices)
        }
        Phase::Asking | Phase::Wanting(_) | Phase::Idle => Known::Open,
    }
}

/// Says again what a phase says.
pub fn say_again(
    alloc: Global,
    errand: &Errand,
    phase: &Phase,
    outs: &mut Sequence<Out>,
) -> Result<(), Memory>
    requires { PhaseFits errand.now.config phase.now }
    ensures { let known = known_kept errand.now.config.f phase.now in
        let sayings = again errand.now known (phase_seen phase.now) in
        OnOk result (outs.new ≡ outs.old ++ outs_of_sayings errand.now.keys sayings) }
{
    let config = &errand.config;
    match phase {
        Phase::Asking => {
            let call = &errand.call;
            ask_each(alloc, config, &errand.keys, call.inputs.as_slice(), outs)?;
            ask_each(alloc, config, &errand.keys, call.reads.as_slice(), outs)
        }
        Phase::Wanting(wanted) => {
            let shards = wanted.shards.as_slice();
            want_dummies(alloc, config, &errand.keys, errand.dummy, shards, outs)
        }
        Phase::Submitting(submission) => match known_in(errand, phase) {
            Known::Open => submit(alloc, errand, submission, outs),
            Known::Accepted(_) | Known::Aborted(_) => Ok(()),
        },
        Phase::Idle => Ok(()),
    }
}

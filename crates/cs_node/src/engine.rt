//! What applies the rules of a node.
ghost use Rattle.std.specs.Prelude.{◌≡◌, ◌++◌, ◌≤◌, ◌<◌, IfOk, OnOk, List, length, true};
ghost use Rattle.cs_base.specs.declared.version.Version.TheVariants.{One};
ghost use Rattle.cs_base.specs.Version.{version_of};
ghost use Rattle.cs_tx_value.specs.declared.object.Object.{Object as AnyObject};
ghost use Rattle.cs_order.specs.declared.answers.May.TheVariants.{Free, Only};
ghost use Rattle.cs_order.specs.Deeds.{Member, chosen_in};
ghost use Rattle.cs_node_rules.specs.Net.{Net};
ghost use Rattle.cs_node_rules.specs.Trail.{handed, entered_view, due_marks, candidate_marks, propose_marks, echo_marks, turn_marks, input_marks};
ghost use Rattle.cs_node_state.specs.Admission.{due};
ghost use Rattle.cs_node_pool.specs.Deployed.{deployed_setup};
ghost use Rattle.cs_node.specs.Notes.{TellsSigns};
ghost use Rattle.cs_node.specs.Proposals.{pool_admits, admits_pending, first_admitted};
ghost use Rattle.cs_node.specs.Speaking.{Speaks, input_of};
ghost use Rattle.cs_node.specs.Steps.{MakesMarks, Settles, log_cut_at};
ghost use Rattle.cs_node.specs.Cores.{Leads, TurnsBy, site_at};

use crate::draft::Draft;
use crate::executions::execute;
use crate::handing::hand_out;
use cs_base::{Memory, Sequence};
use cs_check_rules::KEPT_SLOTS;
use cs_docket::Docket;
use cs_node_wire::{Carried, propose_entry, read_entry};
use cs_order::{May, Order, Outgoing, Proposed, Step};
use cs_sbac::Sbac;
use cs_tx::Judge;
use cs_tx_types::COVERED;
use cs_wire::{Input, Keys};
use std::alloc::Global;

/// What applies the rules of a node: its order, its table, its pool and its archive.
#[derive(Drop)]
pub struct Engine<O: Order, J: Judge + Drop> {
    pub(crate) order: O,
    pub(crate) judge: Docket<J>,
    pub(crate) sbac: Sbac,
}

impl<O: Carried, J: Judge + Drop> Engine<O, J> {
    /// Does what an input says.
    pub fn take_in(
        &mut self,
        alloc: Global,
        keys: &Keys,
        draft: &mut Draft,
        input: Input<'_>,
    ) -> Result<(), Memory>
        requires { keys.now.version ≡ One }
        ensures { keys.now.me ≡ self.old.sbac.me →
            Leads O.stands J.is_approved O.rules O.carrier self.old self.new (λ site v After.
            Speaks self.old.sbac.config site.net keys.now →
            let marks = input_marks site v (input_of input.entry) in
            OnOk result (MakesMarks site marks v draft.old draft.new After)) }
    {
        match input {
            Input::Datagram(bytes) => self.hear_datagram(alloc, keys, draft, bytes),
            Input::Tick => self.tick(alloc, draft),
        }
    }

    /// Applies the rules until none applies.
    pub fn settle(&mut self, alloc: Global, draft: &mut Draft) -> Result<(), Memory>
        ensures { Leads O.stands J.is_approved O.rules O.carrier self.old self.new
            (λ site v After. OnOk result (Settles site v draft.old draft.new After)) }
    {
        while self.turn(alloc, draft)? {}
        Ok(())
    }

    /// Applies the first rule that applies.
    fn turn(&mut self, alloc: Global, draft: &mut Draft) -> Result<bool, Memory>
        ensures done { TurnsBy O.stands J.is_approved O.rules O.carrier self.old self.new
            draft.old draft.new result (λ site v. turn_marks site v) }
        ensures falls { IfOk result (λ went. went ≡ true →
            O.rest self.new.order < O.rest self.old.order) }
    {
        let slot = self.order.open_slot();
        let view = self.order.view();
        let mut outgoing = Vec::new(alloc);
        match self.order.advance(alloc, &mut outgoing)? {
            Step::Chosen(proposed) => {
                hand_out::<O>(alloc, &self.sbac, draft, outgoing)?;
                execute(alloc, &mut self.sbac, draft, slot, &proposed)?;
                cut_log(&mut self.order);
                Ok(true)
            }
            Step::Moved => {
                self.say_moved(alloc, draft, slot, view, outgoing)?;
                Ok(true)
            }
            Step::Quiet => self.echo(alloc, draft),
        }
    }

    /// Says what a deed of the order handed out, and notes the view that it may have entered.
    pub(crate) fn say_moved(
        &self,
        alloc: Global,
        draft: &mut Draft,
        slot: u64,
        before: u16,
        outgoing: Vec<Outgoing<O::Message>>,
    ) -> Result<(), Memory>
        ensures { (net : Net) (genesis : List AnyObject) (h : Member O.Message) →
            version_of self.now.sbac.config.version ≡ One → O.stands self.now.order h →
            let approves = J.is_approved self.now.judge in
            let site = site_at O.rules O.carrier net self.now.sbac genesis approves in
            let said = handed site self.now.sbac.me outgoing.items in
            let entered = entered_view slot before (O.rules.view h) in
            OnOk result (TellsSigns (said ++ entered) draft.old draft.new) }
    {
        note_entered_view(draft, slot, before, self.order.view())?;
        hand_out::<O>(alloc, &self.sbac, draft, outgoing)?;
        Ok(())
    }

    /// Echoes the pending proposal where the node admits it, and else proposes.
    fn echo(&mut self, alloc: Global, draft: &mut Draft) -> Result<bool, Memory>
        ensures done { TurnsBy O.stands J.is_approved O.rules O.carrier self.old self.new
            draft.old draft.new result (λ site v. echo_marks site v (O.rules.pending v.member)) }
        ensures falls { IfOk result (λ went. went ≡ true →
            O.rest self.new.order < O.rest self.old.order) }
    {
        if admits_pending(alloc, &self.order, &self.sbac, &mut self.judge)? {
            let mut outgoing = Vec::new(alloc);
            self.order.echo(alloc, &mut outgoing)?;
            hand_out::<O>(alloc, &self.sbac, draft, outgoing)?;
            return Ok(true);
        }
        self.propose(alloc, draft)
    }

    /// Proposes, where the order lets the node propose.
    fn propose(&mut self, alloc: Global, draft: &mut Draft) -> Result<bool, Memory>
        ensures done { TurnsBy O.stands J.is_approved O.rules O.carrier self.old self.new
            draft.old draft.new result
            (λ site v. propose_marks site v (O.rules.may_propose v.member)) }
        ensures falls { IfOk result (λ went. went ≡ true →
            O.rest self.new.order < O.rest self.old.order) }
    {
        match self.order.may_propose(alloc)? {
            May::No => Ok(false),
            May::Free => self.propose_due(alloc, draft),
            May::Only(candidates) => self.propose_first(alloc, draft, candidates),
        }
    }

    /// Proposes the due entry.
    fn propose_due(&mut self, alloc: Global, draft: &mut Draft) -> Result<bool, Memory>
        requires { O.allows self.old.order ≡ Free }
        ensures done { TurnsBy O.stands J.is_approved O.rules O.carrier self.old self.new
            draft.old draft.new result (λ site v. due_marks site v (due site.setup v.bench.pool)) }
        ensures falls { IfOk result (λ went. went ≡ true →
            O.rest self.new.order < O.rest self.old.order) }
    {
        match self.sbac.due(alloc)? {
            None => Ok(false),
            Some(entry) => {
                let proposed = propose_entry(alloc, &entry, self.sbac.version())?;
                let mut outgoing = Vec::new(alloc);
                self.order.propose(alloc, proposed, &mut outgoing)?;
                hand_out::<O>(alloc, &self.sbac, draft, outgoing)?;
                Ok(true)
            }
        }
    }

    /// Proposes the first candidate that the node admits.
    fn propose_first(
        &mut self,
        alloc: Global,
        draft: &mut Draft,
        candidates: Sequence<Proposed>,
    ) -> Result<bool, Memory>
        requires { O.allows self.old.order ≡ Only candidates }
        ensures done { TurnsBy O.stands J.is_approved O.rules O.carrier self.old self.new
            draft.old draft.new result (λ site v. candidate_marks site v candidates) }
        ensures falls { IfOk result (λ went. went ≡ true →
            O.rest self.new.order < O.rest self.old.order) }
    {
        match first_admitted(alloc, &self.sbac, &mut self.judge, &candidates)? {
            None => Ok(false),
            Some(proposed) => {
                let mut outgoing = Vec::new(alloc);
                self.order.propose(alloc, proposed, &mut outgoing)?;
                hand_out::<O>(alloc, &self.sbac, draft, outgoing)?;
                Ok(true)
            }
        }
    }
}

// Whether the node admits a proposal.
fn admits_proposed<J: Judge + Drop>(
    alloc: Global,
    sbac: &Sbac,
    judge: &mut Docket<J>,
    proposed: &Proposed,
) -> Result<bool, Memory>
    ensures admits { (genesis : List AnyObject) →
        let setup = deployed_setup sbac.now.config genesis (J.is_approved judge.old) in
        let held = sbac.now in
        IfOk result (λ yes. yes ≡ pool_admits setup held.me.shard held.pool proposed.now) }
    ensures judge { judge.new ≡ judge.old }
{
    match read_entry(alloc, proposed, sbac.version())? {
        None => Ok(false),
        Some(entry) => sbac.admits(alloc, &entry, judge),
    }
}

// Whether the node admits the pending proposal.
fn admits_pending<O: Order, J: Judge + Drop>(
    alloc: Global,
    order: &O,
    sbac: &Sbac,
    judge: &mut Docket<J>,
) -> Result<bool, Memory>
    ensures awaits { (h : Member O.Message) → O.stands order.now h →
        O.awaits order.now ≡ O.rules.pending h }
    ensures admits { (genesis : List AnyObject) →
        let setup = deployed_setup sbac.now.config genesis (J.is_approved judge.old) in
        let held = sbac.now in
        let pending = O.awaits order.now in
        IfOk result (λ yes. yes ≡ admits_pending setup held.me.shard held.pool pending) }
    ensures judge { judge.new ≡ judge.old }
{
    match order.pending() {
        None => Ok(false),
        Some(proposed) => admits_proposed(alloc, sbac, judge, proposed),
    }
}

// The first candidate that the node admits.
fn first_admitted<J: Judge + Drop>(
    alloc: Global,
    sbac: &Sbac,
    judge: &mut Docket<J>,
    candidates: &Sequence<Proposed>,
) -> Result<Option<Proposed>, Memory>
    ensures first { (genesis : List AnyObject) →
        let setup = deployed_setup sbac.now.config genesis (J.is_approved judge.old) in
        let held = sbac.now in
        let found = first_admitted setup held.me.shard held.pool candidates.now in
        IfOk result (λ first. first ≡ found) }
    ensures judge { judge.new ≡ judge.old }
{
    for proposed in candidates.as_slice() {
        if admits_proposed(alloc, sbac, judge, proposed)? {
            return Ok(Some(proposed.copy(alloc)?));
        }
    }
    Ok(None)
}

// Notes the view that was entered, if one was.
fn note_entered_view(draft: &mut Draft, slot: u64, before: u16, after: u16) -> Result<(), Memory>
    ensures { OnOk result (TellsSigns (entered_view slot before after) draft.old draft.new) }
{
    if before < after {
        return draft.note_view(slot, after);
    }
    Ok(())
}

// After every 16th slot, which makes a checkpoint, the order gives up the slots before the last
// 1,024.
fn cut_log<O: Order>(order: &mut O)
    ensures cut { (h : Member O.Message) → O.stands order.old h →
        O.stands order.new (log_cut_at (length (chosen_in h.deeds)) h) }
    ensures rest { O.rest order.new ≤ O.rest order.old }
{
    let open = order.open_slot();
    if open % COVERED == 0 {
        order.cut(open.saturating_sub(KEPT_SLOTS));
    }
}

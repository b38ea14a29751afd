//! What a member keeps of its shard's order.
ghost use Rattle.std.specs.Prelude.{◌≡◌, ◌≢◌, ◌+◌, ◌*◌, ◌^◌, ◌≤◌, ◌<◌, ◌==◌, ◌&&◌, nat_lt, min, max, not, true, List, Some, None, IfOk, OnOk, OnErr, length, option_copied, ◌++◌, if◌then◌else◌};
ghost use Rattle.cs_base.specs.declared.limits.TheConstants.{SLOTS_AHEAD};
ghost use Rattle.cs_order.specs.declared.proposed.Proposed.{Proposed};
ghost use Rattle.cs_order.specs.Deeds.{entry_from};
ghost use Rattle.cs_order.specs.Kept.{KeepsFrom};
ghost use Rattle.cs_order.specs.Limits.{last_slot, view_bound};
ghost use Rattle.cs_order.specs.Calls.{Proposable};
ghost use Rattle.cs_order.specs.Law.{IsPrefix};
ghost use Rattle.cs_order_rules.specs.declared.message.OrderMessage.TheVariants as message;
ghost use Rattle.cs_order_rules.specs.Slot.{to_confirm};
ghost use Rattle.cs_order_rules.specs.Facts.{Sight, open_slot, slot_of_message, is_like, took};
ghost use Rattle.cs_order_rules.specs.Rules.{verdict, choice, view_to_enter, confirming, step_of, advance_sent, pending, echo_sent, may_propose, propose_sent, change_to, tick_sent, to_all, reply_with};
ghost use Rattle.cs_order_open.specs.Shows.{led};
ghost use Rattle.cs_order_open.specs.Look.{look_of, pending_by, may_by, resend_by};
ghost use Rattle.cs_log.specs.Replicas.{kept, next_slot, longest_wait, Mirrors, IsSeen, at_first, after_taking, if_fresh, said, sight_with_view, chose, after_step, after_echo, after_tick, kept_rest, RepliedWith};

use crate::later::{extend, open_first, take_at};
use crate::saying::{change_again, confirm_again, echo_again, hand_out, propose_again, say};
use cs_base::{Memory, SLOTS_AHEAD, VIEW_BOUND};
use cs_order::{KeptLog, May, Outgoing, Proposed, Step, Took};
use cs_order_open::{OpenSlot, slot_of};
use cs_order_rules::OrderMessage;
use std::alloc::Global;

/// A wait counts no further: no view waits for more ticks.
const LONGEST_WAIT: u16 = 8192;

/// What a member keeps. After a want of memory it is not used again.
#[derive(Drop)]
pub struct Replica {
    f: u16,
    me: u16,
    log: KeptLog,
    view: u16,
    /// The ticks since the view was entered at which there was something to wait for.
    wait: u16,
    current: OpenSlot,
    /// The slots above it, as far as messages of them were taken.
    later: Vec<OpenSlot>,
}

impl Replica {
    /// What a member keeps that has done nothing.
    pub fn new(alloc: Global, f: u16, me: u16) -> Result<Replica, Memory>
        requires few { f ≤ 5 }
        requires member { me ≤ 3 * f }
        ensures mirrors { IfOk result (λ replica. Mirrors (kept replica) (at_first f me)) }
        ensures first { IfOk result (λ replica. replica.log.first ≡ 0) }
    {
        let current = OpenSlot::new(alloc, f, 0, me)?;
        Ok(Replica {
            f,
            me,
            log: KeptLog::new(alloc),
            view: 0,
            wait: 0,
            current,
            later: Vec::new(alloc),
        })
    }

    /// How many members may lie.
    pub fn f(&self) -> u16
        ensures { result ≡ self.now.f }
    {
        self.f
    }

    /// The member's index.
    pub fn me(&self) -> u16
        ensures { result ≡ self.now.me }
    {
        self.me
    }

    /// The first slot that is not chosen.
    pub fn open_slot(&self) -> u64
        ensures slot { result ≡ next_slot (kept self.now).log }
        ensures bound { result ≤ last_slot }
    {
        self.log.next()
    }

    /// The view that the member is in.
    pub fn view(&self) -> u16
        ensures { result ≡ self.now.view }
    {
        self.view
    }

    /// The entry that is chosen in a slot, unless it was cut.
    pub fn entry(&self, slot: u64) -> Option<&Proposed>
        ensures { (log : List Proposed) →
            KeepsFrom self.now.log.first self.now.log.entries.items log →
            option_copied result ≡ entry_from self.now.log.first log slot }
    {
        self.log.get(slot)
    }

    /// Takes a message of another member.
    pub fn take(&mut self, alloc: Global, from: u16, message: OrderMessage) -> Result<Took, Memory>
        requires seen { IsSeen (kept self.old) }
        requires member { from ≤ 3 * self.old.f }
        requires other { from ≢ self.old.me }
        ensures call { (s : Sight) → Mirrors (kept self.old) s →
            IfOk result (λ took. (took ≡ verdict s from message)
            × Mirrors (kept self.new) (after_taking (verdict s from message) s from message)) }
        ensures uncut { OnOk result (self.new.log.first ≡ self.old.log.first) }
    {
        let slot = slot_of(&message);
        let open = self.open_slot();
        if slot < open {
            return Ok(Took::Old);
        }
        if slot > open + SLOTS_AHEAD {
            return Ok(Took::Far);
        }
        if !self.is_led(from, &message) {
            return Ok(Took::Leader);
        }
        let fresh = self.take_led(alloc, from, message)?;
        Ok(if fresh { Took::Taken } else { Took::Repeat })
    }

    /// A proposal is of the member that leads its view.
    fn is_led(&self, from: u16, message: &OrderMessage) -> bool
        requires slot { slot_of_message message.now < 2 ^ 63 }
        requires few { self.now.f ≤ 5 }
        ensures { result ≡ led self.now.f from message.now }
    {
        match message {
            OrderMessage::Propose { slot, view, .. } => {
                let members = 3 * u64::from(self.f) + 1;
                u64::from(from) == (*slot + u64::from(*view)) % members
            }
            OrderMessage::Echo { .. } => true,
            OrderMessage::Confirm { .. } => true,
            OrderMessage::Change { .. } => true,
            OrderMessage::Done { .. } => true,
        }
    }

    /// Takes a message of the open slot or a later one. It is false exactly for a repeat.
    fn take_led(&mut self, alloc: Global, from: u16, message: OrderMessage) -> Result<bool, Memory>
        requires seen { IsSeen (kept self.old) }
        requires member { from ≤ 3 * self.old.f }
        requires other { from ≢ self.old.me }
        requires slot { next_slot (kept self.old).log ≤ slot_of_message message }
        requires near { slot_of_message message ≤ next_slot (kept self.old).log + SLOTS_AHEAD }
        requires led { led self.old.f from message ≡ true }
        ensures call { (s : Sight) → Mirrors (kept self.old) s →
            IfOk result (λ fresh. (fresh ≡ not (took (is_like message) s.taken from))
            × Mirrors (kept self.new) (if_fresh fresh s from message)) }
        ensures uncut { OnOk result (self.new.log.first ≡ self.old.log.first) }
    {
        let slot = slot_of(&message);
        let open = self.open_slot();
        if slot == open {
            let fresh = self.current.take(from, message)?;
            return Ok(fresh);
        }
        let place = (slot - open - 1) as usize;
        extend(alloc, &mut self.later, self.f, self.me, open + 1, place + 1)?;
        take_at(&mut self.later, place, from, message)
    }

    /// Chooses an entry, enters a view or confirms, whichever applies first.
    pub fn advance(
        &mut self,
        alloc: Global,
        out: &mut Vec<Outgoing<OrderMessage>>,
    ) -> Result<Step, Memory>
        requires { IsSeen (kept self.old) }
        ensures call { (s : Sight) → Mirrors (kept self.old) s →
            IfOk result (λ step. (step ≡ step_of s)
            × (out.new.items ≡ out.old.items ++ advance_sent s)
            × Mirrors (kept self.new) (after_step s (choice s) (view_to_enter s) (confirming s))) }
        ensures uncut { OnOk result (self.new.log.first ≡ self.old.log.first) }
    {
        if let Some(entry) = self.current.chosen() {
            let chosen = entry.copy(alloc)?;
            let kept = entry.copy(alloc)?;
            self.choose(alloc, kept)?;
            return Ok(Step::Chosen(chosen));
        }
        if let Some(view) = self.current.entering() {
            self.enter(alloc, view, out)?;
            return Ok(Step::Moved);
        }
        if let Some(digest) = self.current.to_confirm() {
            self.confirm(digest, out)?;
            return Ok(Step::Moved);
        }
        Ok(Step::Quiet)
    }

    /// Puts an entry to the log, and opens the next slot.
    fn choose(&mut self, alloc: Global, entry: Proposed) -> Result<(), Memory>
        requires seen { IsSeen (kept self.old) }
        requires room { next_slot (kept self.old).log < last_slot }
        ensures call { (s : Sight) → Mirrors (kept self.old) s →
            OnOk result (Mirrors (kept self.new) (chose s entry)) }
        ensures uncut { OnOk result (self.new.log.first ≡ self.old.log.first) }
    {
        self.log.push(entry)?;
        let open = self.open_slot();
        let current = open_first(alloc, &mut self.later, self.f, open, self.me)?;
        self.current = current;
        self.view = 0;
        self.wait = 0;
        Ok(())
    }

    /// Enters a later view, and tells what it saw before.
    fn enter(
        &mut self,
        alloc: Global,
        view: u16,
        out: &mut Vec<Outgoing<OrderMessage>>,
    ) -> Result<(), Memory>
        requires seen { IsSeen (kept self.old) }
        requires later { self.old.view < view }
        requires small { view < view_bound }
        ensures call { (s : Sight) → Mirrors (kept self.old) s →
            OnOk result ((out.new.items ≡ out.old.items ++ change_to s view)
            × Mirrors (kept self.new) (sight_with_view s view)) }
        ensures uncut { OnOk result (self.new.log.first ≡ self.old.log.first) }
    {
        let slot = self.open_slot();
        let change = self.current.change(alloc)?;
        let told = self.current.change(alloc)?;
        self.current.change_own(self.me, view, change)?;
        self.current.enter(view);
        self.view = view;
        self.wait = 0;
        say(
            out,
            OrderMessage::Change {
                slot,
                view,
                change: told,
            },
        )
    }

    /// Confirms a digest.
    fn confirm(
        &mut self,
        digest: [u8; 32],
        out: &mut Vec<Outgoing<OrderMessage>>,
    ) -> Result<(), Memory>
        requires seen { IsSeen (kept self.old) }
        requires due { to_confirm (look_of self.old.current).seen ≡ Some digest }
        ensures call { (s : Sight) → Mirrors (kept self.old) s →
            (let confirm = message.Confirm (open_slot s) s.view digest in
            OnOk result ((out.new.items ≡ out.old.items ++ to_all confirm)
            × Mirrors (kept self.new) (said s confirm))) }
        ensures uncut { OnOk result (self.new.log.first ≡ self.old.log.first) }
    {
        let slot = self.open_slot();
        let view = self.view;
        self.current.confirm_own(self.me, digest, view)?;
        say(out, OrderMessage::Confirm { slot, view, digest })
    }

    /// The proposal that the member may echo, if it admits the entry.
    pub fn pending(&self) -> Option<&Proposed>
        ensures { option_copied result ≡ pending_by (look_of self.now.current) }
    {
        self.current.pending()
    }

    /// Echoes the pending proposal, if there is one.
    pub fn echo(
        &mut self,
        alloc: Global,
        out: &mut Vec<Outgoing<OrderMessage>>,
    ) -> Result<(), Memory>
        requires { IsSeen (kept self.old) }
        ensures call { (s : Sight) → Mirrors (kept self.old) s →
            OnOk result ((out.new.items ≡ out.old.items ++ echo_sent s (pending s))
            × Mirrors (kept self.new) (after_echo s (pending s))) }
        ensures uncut { OnOk result (self.new.log.first ≡ self.old.log.first) }
    {
        let Some(entry) = self.current.pending() else {
            return Ok(());
        };
        let digest = entry.digest;
        let slot = self.open_slot();
        let view = self.view;
        self.current.echo_own(alloc, self.me, view, digest)?;
        say(out, OrderMessage::Echo { slot, view, digest })
    }

    /// What the member may propose, if it admits the entry.
    pub fn may_propose(&self, alloc: Global) -> Result<May, Memory>
        requires { IsSeen (kept self.now) }
        ensures { IfOk result (λ may. may ≡ may_by (look_of self.now.current)) }
    {
        self.current.may_propose(alloc)
    }

    /// Proposes an entry.
    pub fn propose(
        &mut self,
        alloc: Global,
        entry: Proposed,
        out: &mut Vec<Outgoing<OrderMessage>>,
    ) -> Result<(), Memory>
        requires seen { IsSeen (kept self.old) }
        requires may { Proposable (may_by (look_of self.old.current)) entry }
        ensures call { (s : Sight) → Mirrors (kept self.old) s →
            OnOk result ((out.new.items ≡ out.old.items ++ propose_sent s entry)
            × Mirrors (kept self.new) (said s (message.Propose (open_slot s) s.view entry))) }
        ensures uncut { OnOk result (self.new.log.first ≡ self.old.log.first) }
    {
        let slot = self.open_slot();
        let view = self.view;
        let own = entry.copy(alloc)?;
        self.current.propose_own(self.me, view, own)?;
        say(out, OrderMessage::Propose { slot, view, entry })
    }

    /// Says the own messages of the open slot and the view again.
    pub fn resend(&self, alloc: Global, out: &mut Vec<Outgoing<OrderMessage>>) -> Result<(), Memory>
        requires { IsSeen (kept self.now) }
        ensures said { OnOk result (
            out.new.items ≡ out.old.items ++ resend_by (look_of self.now.current)) }
        ensures begins { OnErr result (IsPrefix out.old.items out.new.items) }
    {
        let slot = self.open_slot();
        let current = &self.current;
        propose_again(alloc, out, slot, self.view, current.own_proposal())?;
        echo_again(out, slot, self.view, current.own_echo())?;
        confirm_again(out, slot, self.view, current.own_confirm())?;
        change_again(alloc, out, slot, self.view, current.own_change())
    }

    /// Counts a tick, at which the next view may be entered.
    pub fn tick(
        &mut self,
        alloc: Global,
        due: bool,
        out: &mut Vec<Outgoing<OrderMessage>>,
    ) -> Result<(), Memory>
        requires { IsSeen (kept self.old) }
        ensures call { (s : Sight) → Mirrors (kept self.old) s →
            OnOk result ((out.new.items ≡ out.old.items ++ tick_sent s due)
            × Mirrors (kept self.new) (after_tick s due)) }
        ensures uncut { OnOk result (self.new.log.first ≡ self.old.log.first) }
    {
        if !due && !self.current.has_echoed() {
            return Ok(());
        }
        if self.is_over() {
            return self.enter(alloc, self.view + 1, out);
        }
        if self.wait < LONGEST_WAIT {
            self.wait += 1;
        }
        Ok(())
    }

    /// One more tick ends the wait of the view.
    fn is_over(&self) -> bool
        requires view { self.now.view < view_bound }
        requires wait { self.now.wait ≤ longest_wait }
        ensures { result ≡ ((self.now.wait + 1 == 8 * 2 ^ min self.now.view 10)
            && nat_lt (self.now.view + 1) view_bound) }
    {
        self.wait + 1 == limit(self.view) && self.view + 1 < VIEW_BOUND
    }

    /// Answers another member that asks for a slot, and says whether there is an answer.
    pub fn reply(
        &self,
        alloc: Global,
        slot: u64,
        to: u16,
        out: &mut Vec<Outgoing<OrderMessage>>,
    ) -> Result<bool, Memory>
        ensures said { (log : List Proposed) →
            KeepsFrom self.now.log.first self.now.log.entries.items log →
            IfOk result (λ answer.
            RepliedWith (reply_with slot to (entry_from self.now.log.first log slot)) answer
            out.old.items out.new.items) }
        ensures same { OnErr result (out.new.items ≡ out.old.items) }
    {
        let Some(entry) = self.entry(slot) else {
            return Ok(false);
        };
        let entry = entry.copy(alloc)?;
        hand_out(out, Some(to), OrderMessage::Done { slot, entry })?;
        Ok(true)
    }

    /// Gives up the entries of the slots below this one.
    pub fn cut(&mut self, slot: u64)
        ensures call { (s : Sight) → Mirrors (kept self.old) s → slot ≤ open_slot s →
            Mirrors (kept self.new) s × (self.new.log.first ≡ max slot self.old.log.first) }
        ensures rest { kept_rest (kept self.new) ≡ kept_rest (kept self.old) }
        ensures same { (self.new.f ≡ self.old.f) × (self.new.me ≡ self.old.me) }
    {
        self.log.cut(slot);
    }
}

/// For how many ticks a view waits.
fn limit(view: u16) -> u16
    ensures { result ≡ 8 * 2 ^ min view 10 }
{
    8 << view.min(10)
}

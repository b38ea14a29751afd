//! The open slot.
ghost use Rattle.std.specs.Prelude.{◌≡◌, ◌≢◌, ℕ, ◌+◌, ◌*◌, ◌%◌, ◌≤◌, ◌<◌, ◌^◌, nat_lt, true, [], Some, None, length, IfOk, option_copied};
ghost use Rattle.cs_order.specs.Limits.{view_bound};
ghost use Rattle.cs_order_rules.specs.declared.message.OrderMessage.TheVariants as message;
ghost use Rattle.cs_order_rules.specs.Slot.{chosen, to_confirm};
ghost use Rattle.cs_order_rules.specs.Rules.{pairs_below};
ghost use Rattle.cs_change.specs.Kept.{change_in};
ghost use Rattle.cs_order_open.specs.Look.{look_of, entering_by, change_by, has_place_by, may_echo_by, pending_by, leads_by, own_proposal, own_echo, own_confirm, own_change, candidate_by, candidates_by, may_by};
ghost use Rattle.cs_order_rules.specs.Facts.{Sight, slot_of_message};
ghost use Rattle.cs_slot.specs.Kept.{seen_in};
ghost use Rattle.cs_order_open.specs.Shows.{ShowsSlot, TakesFirst, IsSlotOf, led};

use crate::lines::{is_listed, with_line};
use crate::pairs::{Pair, with_pair};
use cs_base::{MOST_ECHOED, Memory, Sequence};
use cs_change::SlotChanges;
use cs_order::{May, Proposed};
use cs_order_rules::{Change, OrderMessage};
use cs_slot::Slot;
use std::alloc::{AllocError, Global};
use std::marker::Model;

/// What a member took of a slot, and what it echoed there itself.
#[derive(Drop)]
pub struct OpenSlot {
    slot: Slot,
    changes: SlotChanges,
    /// The digests that the member echoed, rising, each with the greatest view.
    echoed: Vec<([u8; 32], u16)>,
}

impl Model for OpenSlot {
    ghost use Rattle.cs_order_open.specs.Shows.{KeptOpenSlot};

    ghost Value = { KeptOpenSlot };

    ghost view = { λ r. record { slot = r.slot; changes = r.changes; echoed = r.echoed.items } };
}

impl OpenSlot {
    /// A slot of which nothing was taken.
    pub fn new(alloc: Global, f: u16, n: u64, me: u16) -> Result<OpenSlot, Memory>
        requires few { f ≤ 5 }
        requires member { me ≤ 3 * f }
        ensures shows { IfOk result (λ current. (s : Sight) →
            s.f ≡ f → s.me ≡ me → s.views ≡ view_bound → s.taken ≡ [] → ShowsSlot current s n 0) }
        ensures whose { IfOk result (λ current. IsSlotOf f n me 0 current) }
    {
        let slot = Slot::new(alloc, f, n, me)?;
        Ok(OpenSlot {
            slot,
            changes: SlotChanges::new(alloc, f),
            echoed: Vec::new(alloc),
        })
    }

    /// Takes a message of another member. It is false exactly for a repeat.
    pub fn take(&mut self, from: u16, message: OrderMessage) -> Result<bool, Memory>
        requires member { from ≤ 3 * self.old.slot.f }
        requires other { from ≢ self.old.slot.me }
        requires slot { slot_of_message message ≡ self.old.slot.n }
        requires led { led self.old.slot.f from message ≡ true }
        ensures call { (s : Sight) (n view : ℕ) → ShowsSlot self.old s n view →
            IfOk result (λ fresh. TakesFirst fresh self.new s n view from message) }
        ensures whose { (f n me view : ℕ) → IsSlotOf f n me view self.old →
            IfOk result (λ fresh. IsSlotOf f n me view self.new) }
    {
        match message {
            OrderMessage::Propose { view, entry, .. } => {
                let fresh = self.slot.propose(from, view, entry)?;
                Ok(fresh)
            }
            OrderMessage::Echo { view, digest, .. } => {
                let fresh = self.slot.echo(from, view, digest)?;
                Ok(fresh)
            }
            OrderMessage::Confirm { view, digest, .. } => {
                let fresh = self.slot.confirm(from, view, digest)?;
                Ok(fresh)
            }
            OrderMessage::Change { view, change, .. } => {
                let fresh = self.changes.add(view, from, change)?;
                Ok(fresh)
            }
            OrderMessage::Done { entry, .. } => {
                let fresh = self.slot.done(from, entry)?;
                Ok(fresh)
            }
        }
    }

    /// Takes the proposal of the member itself, which leads the view.
    pub fn propose_own(&mut self, me: u16, view: u16, entry: Proposed) -> Result<bool, Memory>
        requires { me ≡ (self.old.slot.n + view) % (3 * self.old.slot.f + 1) }
        ensures call { (s : Sight) (n v : ℕ) → ShowsSlot self.old s n v →
            IfOk result (λ fresh.
            TakesFirst fresh self.new s n v me (message.Propose n view entry)) }
        ensures whose { (f n me view : ℕ) → IsSlotOf f n me view self.old →
            IfOk result (λ fresh. IsSlotOf f n me view self.new) }
    {
        let fresh = self.slot.propose(me, view, entry)?;
        Ok(fresh)
    }

    /// Takes the echo of the member itself, and lists it.
    pub fn echo_own(
        &mut self,
        alloc: Global,
        me: u16,
        view: u16,
        digest: [u8; 32],
    ) -> Result<bool, Memory>
        requires own { me ≡ self.old.slot.me }
        requires member { me ≤ 3 * self.old.slot.f }
        ensures call { (s : Sight) (n v : ℕ) → ShowsSlot self.old s n v →
            IfOk result (λ fresh.
            TakesFirst fresh self.new s n v me (message.Echo n view digest)) }
        ensures whose { (f n me view : ℕ) → IsSlotOf f n me view self.old →
            IfOk result (λ fresh. IsSlotOf f n me view self.new) }
    {
        let fresh = self.slot.echo(me, view, digest)?;
        if !fresh {
            return Ok(false);
        }
        self.echoed = with_line(alloc, self.echoed.as_slice(), (digest, view))?;
        Ok(true)
    }

    /// Takes the confirm of the member itself.
    pub fn confirm_own(&mut self, me: u16, digest: [u8; 32], view: u16) -> Result<bool, Memory>
        requires member { me ≤ 3 * self.old.slot.f }
        requires own { (view ≡ self.old.slot.view)
            × (to_confirm (seen_in self.old.slot) ≡ Some digest) }
        ensures call { (s : Sight) (n v : ℕ) → ShowsSlot self.old s n v →
            IfOk result (λ fresh.
            TakesFirst fresh self.new s n v me (message.Confirm n view digest)) }
        ensures whose { (f n me view : ℕ) → IsSlotOf f n me view self.old →
            IfOk result (λ fresh. IsSlotOf f n me view self.new) }
    {
        let fresh = self.slot.confirm(me, view, digest)?;
        Ok(fresh)
    }

    /// Takes the change of the member itself.
    pub fn change_own(&mut self, me: u16, view: u16, change: Change) -> Result<bool, Memory>
        ensures call { (s : Sight) (n v : ℕ) → ShowsSlot self.old s n v →
            IfOk result (λ fresh.
            TakesFirst fresh self.new s n v me (message.Change n view change)) }
        ensures whose { (f n me view : ℕ) → IsSlotOf f n me view self.old →
            IfOk result (λ fresh. IsSlotOf f n me view self.new) }
    {
        let fresh = self.changes.add(view, me, change)?;
        Ok(fresh)
    }

    /// Enters a later view.
    #[tactic(auto, using(crate::proofs::Taking::later_view))]
    pub fn enter(&mut self, view: u16)
        requires { self.old.slot.view < view }
        ensures shows { (s : Sight) (n v : ℕ) → ShowsSlot self.old s n v →
            ShowsSlot self.new s n view }
        ensures whose { (f n me v : ℕ) → IsSlotOf f n me v self.old → IsSlotOf f n me view self.new }
    {
        self.slot.enter(view);
    }

    /// The entry that is chosen.
    pub fn chosen(&self) -> Option<&Proposed>
        ensures { option_copied result ≡ chosen (look_of self.now).seen }
    {
        self.slot.chosen()
    }

    /// The greatest later view that f+1 members have reached.
    pub fn entering(&self) -> Option<u16>
        ensures { result ≡ entering_by (look_of self.now) }
    {
        match self.changes.last_reached() {
            Some(view) if view > self.slot.view() => Some(view),
            _ => None,
        }
    }

    /// The digest to confirm.
    pub fn to_confirm(&self) -> Option<[u8; 32]>
        ensures { result ≡ to_confirm (look_of self.now).seen }
    {
        self.slot.to_confirm()
    }

    /// What the member tells as it enters a later view.
    pub fn change(&self, alloc: Global) -> Result<Change, Memory>
        ensures { IfOk result (λ change. change ≡ change_by (look_of self.now)) }
    {
        let echoed = Vec::from_slice(alloc, self.echoed.as_slice())?;
        Ok(Change {
            prepared: self.slot.prepared(),
            echoed: Sequence::from_vec(echoed),
        })
    }

    /// The proposal that may be echoed.
    pub fn pending(&self) -> Option<&Proposed>
        ensures { option_copied result ≡ pending_by (look_of self.now) }
    {
        let entry = self.slot.proposal(self.slot.view())?;
        if self.may_echo(&entry.digest) {
            Some(entry)
        } else {
            None
        }
    }

    fn may_echo(&self, digest: &[u8; 32]) -> bool
        ensures { result ≡ may_echo_by (look_of self.now) digest.now }
    {
        let view = self.slot.view();
        (view == 0 || self.changes.safe(view, digest))
            && self.own_echo().is_none()
            && self.has_place(digest)
    }

    /// The slot has room for the echo of one more digest, or this is one of those echoed.
    fn has_place(&self, digest: &[u8; 32]) -> bool
        ensures { result ≡ has_place_by (look_of self.now) digest.now }
    {
        self.echoed.len() < usize::from(MOST_ECHOED) || is_listed(self.echoed.as_slice(), digest)
    }

    /// The member echoed in the slot.
    pub fn has_echoed(&self) -> bool
        ensures { result ≡ nat_lt 0 (length self.now.echoed) }
    {
        self.echoed.len() > 0
    }

    fn leads(&self) -> bool
        requires slot { self.now.slot.n < 2 ^ 62 }
        requires few { self.now.slot.f ≤ 5 }
        ensures { result ≡ leads_by (look_of self.now) }
    {
        let members = 3 * u64::from(self.slot.f()) + 1;
        (self.slot.number() + u64::from(self.slot.view())) % members == u64::from(self.slot.me())
    }

    /// What the member proposed in its view.
    pub fn own_proposal(&self) -> Option<&Proposed>
        requires slot { self.now.slot.n < 2 ^ 62 }
        requires few { self.now.slot.f ≤ 5 }
        ensures { option_copied result ≡ own_proposal (look_of self.now) }
    {
        if self.leads() {
            self.slot.proposal(self.slot.view())
        } else {
            None
        }
    }

    /// What the member echoed in its view.
    pub fn own_echo(&self) -> Option<[u8; 32]>
        ensures { result ≡ own_echo (look_of self.now) }
    {
        self.slot.echo_of(self.slot.view(), self.slot.me())
    }

    /// What the member confirmed in its view.
    pub fn own_confirm(&self) -> Option<[u8; 32]>
        ensures { result ≡ own_confirm (look_of self.now) }
    {
        self.slot.confirm_of(self.slot.view(), self.slot.me())
    }

    /// What the member told as it entered its view.
    pub fn own_change(&self) -> Option<&Change>
        ensures { option_copied result ≡ own_change (look_of self.now) }
    {
        self.changes.get(self.slot.view(), self.slot.me())
    }

    /// What the member may propose.
    pub fn may_propose(&self, alloc: Global) -> Result<May, Memory>
        requires slot { self.now.slot.n < 2 ^ 62 }
        requires few { self.now.slot.f ≤ 5 }
        ensures { IfOk result (λ may. may ≡ may_by (look_of self.now)) }
    {
        if !self.leads() || self.own_proposal().is_some() {
            return Ok(May::No);
        }
        let view = self.slot.view();
        if view == 0 || self.changes.free(view) {
            return Ok(May::Free);
        }
        let candidates = self.candidates(alloc)?;
        Ok(May::Only(Sequence::from_vec(candidates)))
    }

    /// The entries of prepared pairs that are safe.
    fn candidates(&self, alloc: Global) -> Result<Vec<Proposed>, Memory>
        requires { self.now.slot.f ≤ 5 }
        ensures { IfOk result (λ entries. entries.items ≡ candidates_by (look_of self.now)) }
    {
        let pairs = self.pairs(alloc)?;
        let mut entries = Vec::new(alloc);
        for pair in &pairs {
            if let Some(entry) = self.candidate(pair) {
                let copied = entry.copy(alloc)?;
                if let Err(refused) = entries.push(copied) {
                    return Err(AllocError::from(refused).into());
                }
            }
        }
        Ok(entries)
    }

    fn candidate(&self, pair: &Pair) -> Option<&Proposed>
        ensures { option_copied result ≡ candidate_by (look_of self.now) pair.now }
    {
        if self.changes.safe(self.slot.view(), &pair.1) {
            self.slot.with_digest(&pair.1)
        } else {
            None
        }
    }

    /// The prepared pairs of the changes to the view, by falling view and rising digest.
    fn pairs(&self, alloc: Global) -> Result<Vec<Pair>, Memory>
        requires { self.now.slot.f ≤ 5 }
        ensures { IfOk result (λ pairs. pairs.items
            ≡ pairs_below (3 * self.now.slot.f + 1)
            (change_in self.now.changes.changes self.now.slot.view)) }
    {
        let mut pairs = Vec::new(alloc);
        for member in 0..3 * self.slot.f() + 1 {
            pairs = with_pair(alloc, pairs, self.changes.pair(self.slot.view(), member))?;
        }
        Ok(pairs)
    }
}

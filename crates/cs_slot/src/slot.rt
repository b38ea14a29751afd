//! One slot.
ghost use Rattle.std.specs.Prelude.{◌≡◌, ◌+◌, ◌*◌, ◌%◌, ◌≤◌, ◌<◌, not, Some, is_some, IfOk, option_copied};
ghost use Rattle.cs_order.specs.Limits.{view_bound};
ghost use Rattle.cs_order_rules.specs.Slot.{proposal_of, done_with, confirmed_entry, by_confirm, dones, done_by, by_done, chosen, to_confirm, in_view, prepared};
ghost use Rattle.cs_slot.specs.Kept.{seen_in, none_seen, with_proposal, with_echo, with_confirm, with_done, in_later};

use crate::entries::Entries;
use crate::proposals::Proposals;
use crate::votes::Votes;
use cs_base::{LAST_SLOT, Memory, VIEW_BOUND};
use cs_order::Proposed;
use std::alloc::Global;
use std::marker::Model;

/// One slot, as one member sees it.
///
/// A message counts where it is the first of its member, kind and view. After a want of memory
/// a slot is not used again.
#[derive(Drop)]
pub struct Slot {
    f: u16,
    n: u64,
    me: u16,
    view: u16,
    /// In this view or a later one the member itself confirmed nothing, and no 2f+1 members agree.
    end: u16,
    proposals: Proposals,
    echoes: Votes,
    confirms: Votes,
    dones: Entries,
}

impl Model for Slot {
    ghost use Rattle.std.specs.Prelude.{◌*◌, ◌≤◌};
    ghost use Rattle.cs_order.specs.Limits.{view_bound};
    ghost use Rattle.cs_slot.specs.Kept.{KeptSlot, NothingFrom};

    ghost Value = { KeptSlot };

    ghost view = { λ s. record {
      f = s.f;
      n = s.n;
      me = s.me;
      view = s.view;
      proposals = s.proposals;
      echoes = s.echoes;
      confirms = s.confirms;
      dones = s.dones;
    } };

    ghost invariant = { λ s. (s.f ≤ 5) × (s.me ≤ 3 * s.f)
        × (s.end ≤ view_bound) × NothingFrom s.end s.f s.me s.confirms };
}

impl Slot {
    /// A slot of which nothing was taken, in view 0, as the member sees it.
    pub fn new(alloc: Global, f: u16, n: u64, me: u16) -> Result<Slot, Memory>
        requires few { f ≤ 5 }
        requires member { me ≤ 3 * f }
        ensures { IfOk result (λ slot. seen_in slot ≡ none_seen f n me) }
    {
        Ok(Slot {
            f,
            n,
            me,
            view: 0,
            end: 0,
            proposals: Proposals::new(alloc),
            echoes: Votes::new(alloc),
            confirms: Votes::new(alloc),
            dones: Entries::new(alloc),
        })
    }

    /// How many members may lie.
    pub fn f(&self) -> u16
        ensures { result ≡ self.now.f }
    {
        self.f
    }

    /// The slot's number.
    pub fn number(&self) -> u64
        ensures { result ≡ self.now.n }
    {
        self.n
    }

    /// The member whose view of the slot it is.
    pub fn me(&self) -> u16
        ensures { result ≡ self.now.me }
    {
        self.me
    }

    /// The view that the member is in.
    pub fn view(&self) -> u16
        ensures { result ≡ self.now.view }
    {
        self.view
    }

    /// Takes a proposal of the member that leads the view. It is false exactly for a repeat.
    pub fn propose(&mut self, member: u16, view: u16, entry: Proposed) -> Result<bool, Memory>
        requires { member ≡ (self.old.n + view) % (3 * self.old.f + 1) }
        ensures fresh { IfOk result (λ fresh.
            fresh ≡ not (is_some ((seen_in self.old).proposal view))) }
        ensures now { IfOk result (λ fresh.
            seen_in self.new ≡ with_proposal fresh (seen_in self.old) view entry) }
    {
        self.proposals.add(view, entry)
    }

    /// Takes an echo of a member. It is false exactly for a repeat.
    pub fn echo(&mut self, member: u16, view: u16, digest: [u8; 32]) -> Result<bool, Memory>
        requires { member ≤ 3 * self.old.f }
        ensures fresh { IfOk result (λ fresh.
            fresh ≡ not (is_some ((seen_in self.old).echo view member))) }
        ensures now { IfOk result (λ fresh.
            seen_in self.new ≡ with_echo fresh (seen_in self.old) view member digest) }
    {
        self.echoes.add(view, member, digest)
    }

    /// Takes a confirm of a member. It is false exactly for a repeat.
    ///
    /// The slot's own member confirms what `to_confirm` gives, in the slot's view.
    /// It is then prepared.
    pub fn confirm(&mut self, member: u16, view: u16, digest: [u8; 32]) -> Result<bool, Memory>
        requires member { member ≤ 3 * self.old.f }
        requires own { member ≡ self.old.me →
            (view ≡ self.old.view) × (to_confirm (seen_in self.old) ≡ Some digest) }
        ensures fresh { IfOk result (λ fresh.
            fresh ≡ not (is_some ((seen_in self.old).confirm view member))) }
        ensures now { IfOk result (λ fresh.
            seen_in self.new ≡ with_confirm fresh (seen_in self.old) view member digest) }
    {
        let fresh = self.confirms.add(view, member, digest)?;
        if member == self.me || self.confirms.quorum(self.f, view).is_some() {
            self.end = end_with(self.end, view);
        }
        Ok(fresh)
    }

    /// Takes an entry that a member has chosen. It is false exactly for a repeat.
    pub fn done(&mut self, member: u16, entry: Proposed) -> Result<bool, Memory>
        requires { member ≤ 3 * self.old.f }
        ensures fresh { IfOk result (λ fresh.
            fresh ≡ not (is_some ((seen_in self.old).done member))) }
        ensures now { IfOk result (λ fresh.
            seen_in self.new ≡ with_done fresh (seen_in self.old) member entry) }
    {
        self.dones.add(member, entry)
    }

    /// Enters a later view.
    pub fn enter(&mut self, view: u16)
        requires { self.old.view < view }
        ensures { seen_in self.new ≡ in_later view (seen_in self.old) }
    {
        self.view = view;
    }

    /// The proposal that was taken in a view.
    pub fn proposal(&self, view: u16) -> Option<&Proposed>
        ensures { option_copied result ≡ (seen_in self.now).proposal view }
    {
        self.proposals.get(view)
    }

    /// What a member echoed in a view.
    pub fn echo_of(&self, view: u16, member: u16) -> Option<[u8; 32]>
        ensures { result ≡ (seen_in self.now).echo view member }
    {
        self.echoes.get(view, member)
    }

    /// What a member confirmed in a view.
    pub fn confirm_of(&self, view: u16, member: u16) -> Option<[u8; 32]>
        ensures { result ≡ (seen_in self.now).confirm view member }
    {
        self.confirms.get(view, member)
    }

    /// The proposal of least view that has the digest.
    pub fn with_digest(&self, digest: &[u8; 32]) -> Option<&Proposed>
        ensures { option_copied result ≡ proposal_of (seen_in self.now) digest.now }
    {
        self.proposals.with_digest(digest)
    }

    /// The greatest view in which the slot's own member confirmed, and the digest.
    pub fn prepared(&self) -> Option<(u16, [u8; 32])>
        ensures { result ≡ prepared (seen_in self.now) }
    {
        let mut last = None;
        for view in 0..self.end {
            last = self.prepared_in(view).or(last);
        }
        last
    }

    fn prepared_in(&self, view: u16) -> Option<(u16, [u8; 32])>
        ensures { result ≡ in_view view ((seen_in self.now).confirm view self.now.me) }
    {
        let digest = self.confirms.get(view, self.me)?;
        Some((view, digest))
    }

    /// The digest on which 2f+1 echoes of the slot's view agree, until the slot's own member
    /// confirms in the view.
    pub fn to_confirm(&self) -> Option<[u8; 32]>
        ensures { result ≡ to_confirm (seen_in self.now) }
    {
        if self.confirms.get(self.view, self.me).is_some() {
            return None;
        }
        self.echoes.quorum(self.f, self.view)
    }

    /// The entry that is chosen: by confirms, or else by the members that are done.
    pub fn chosen(&self) -> Option<&Proposed>
        ensures { option_copied result ≡ chosen (seen_in self.now) }
    {
        if self.n >= LAST_SLOT {
            return None;
        }
        match self.by_confirm() {
            Some(entry) => Some(entry),
            None => self.by_done(),
        }
    }

    /// The entry that 2f+1 members confirmed, in the least view in which they did
    /// and the entry is known.
    fn by_confirm(&self) -> Option<&Proposed>
        ensures { option_copied result ≡ by_confirm (seen_in self.now) }
    {
        for view in 0..self.end {
            if let Some(entry) = self.confirmed_in(view) {
                return Some(entry);
            }
        }
        None
    }

    fn confirmed_in(&self, view: u16) -> Option<&Proposed>
        ensures { option_copied result ≡ confirmed_entry (seen_in self.now) view }
    {
        let digest = self.confirms.quorum(self.f, view)?;
        match self.with_digest(&digest) {
            Some(entry) => Some(entry),
            None => self.done_with(&digest),
        }
    }

    /// The entry of the least member that is done with the digest.
    fn done_with(&self, digest: &[u8; 32]) -> Option<&Proposed>
        ensures { option_copied result ≡ done_with (seen_in self.now) digest.now }
    {
        for member in 0..3 * self.f + 1 {
            if let Some(entry) = self.dones.with_digest(member, digest) {
                return Some(entry);
            }
        }
        None
    }

    /// The entry with which f+1 members are done.
    fn by_done(&self) -> Option<&Proposed>
        ensures { option_copied result ≡ by_done (seen_in self.now) }
    {
        for member in 0..3 * self.f + 1 {
            if let Some(entry) = self.done_if_enough(member) {
                return Some(entry);
            }
        }
        None
    }

    fn done_if_enough(&self, member: u16) -> Option<&Proposed>
        ensures { option_copied result ≡ done_by (seen_in self.now) member }
    {
        let entry = self.dones.get(member)?;
        if self.done_count(entry) > self.f {
            Some(entry)
        } else {
            None
        }
    }

    /// How many members are done with the entry.
    fn done_count(&self, entry: &Proposed) -> u16
        ensures { result ≡ dones (seen_in self.now) entry.now }
    {
        let mut count = 0;
        for member in 0..3 * self.f + 1 {
            count += u16::from(self.dones.is_at(member, entry));
        }
        count
    }
}

/// The view after the last one that counts, with one more.
fn end_with(end: u16, view: u16) -> u16
    requires { end ≤ view_bound }
    ensures bound { result ≤ view_bound }
    ensures kept { end ≤ result }
    ensures above { view < view_bound → view < result }
{
    if view >= end && view < VIEW_BOUND {
        view + 1
    } else {
        end
    }
}

//! Changes to all views of a slot.
ghost use Rattle.std.specs.Prelude.{◌≡◌, ℕ, ◌+◌, ◌*◌, ◌≤◌, ◌<◌, ◌==◌, nat_le, ◌&&◌, ◌||◌, [], not, is_some, IfOk, option_copied};
ghost use Rattle.cs_order.specs.Counts.{count_below, last_below};
ghost use Rattle.cs_order.specs.Limits.{view_bound};
ghost use Rattle.cs_order_rules.specs.Safe.{says_none, says_allowed, says_echoed, is_free_view, is_safe};
ghost use Rattle.cs_order_rules.specs.Rules.{pair_of};
ghost use Rattle.cs_change.specs.Kept.{change_in, with_told, reaches, is_joined, is_echoed};

use crate::claims;
use crate::reach::Reach;
use cs_base::Memory;
use cs_order_rules::Change;
use std::alloc::{AllocError, Global};
use std::collections::BTreeMap;
use std::marker::Model;

/// The changes of the members to the views of a slot, the first of each member to each view.
///
/// Finding a change takes the logarithm of their number. `add` also goes over the views that the member newly reached,
/// so over each at most once in the life of a slot; `safe` goes over the members once for each of about ten views.
#[derive(Drop)]
pub struct SlotChanges {
    f: u16,
    /// By view and member.
    changes: BTreeMap<(u16, u16), Change>,
    reach: Reach,
}

impl Model for SlotChanges {
    ghost use Rattle.std.specs.Prelude.{◌≡◌, ◌≤◌};
    ghost use Rattle.cs_change.specs.Kept.{KeptOfSlot};

    ghost Value = { KeptOfSlot };

    ghost view = { λ s. record {
      f = s.f;
      changes = s.changes.entries;
      furthest = s.reach.furthest;
    } };

    ghost invariant = { λ s. (s.f ≤ 5) × (s.reach.f ≡ s.f) };
}

impl SlotChanges {
    /// No changes.
    pub fn new(alloc: Global, f: u16) -> SlotChanges
        requires { f ≤ 5 }
        ensures { (result.f ≡ f) × (result.changes ≡ []) × (result.furthest ≡ []) }
    {
        SlotChanges {
            f,
            changes: BTreeMap::new(alloc),
            reach: Reach::new(alloc, f),
        }
    }

    /// How many members may lie.
    pub fn f(&self) -> u16
        ensures { result ≡ self.now.f }
    {
        self.f
    }

    /// Takes the change of a member to a view. It is false exactly for a repeat.
    pub fn add(&mut self, view: u16, member: u16, change: Change) -> Result<bool, Memory>
        ensures fresh { IfOk result (λ fresh.
            fresh ≡ not (is_some (change_in self.old.changes view member))) }
        ensures now { IfOk result (λ fresh.
            change_in self.new.changes
            ≡ with_told fresh (change_in self.old.changes) view member change) }
        ensures reached { IfOk result (λ fresh. (v m : ℕ) →
            reaches self.new.furthest v m
            ≡ ((fresh && ((member == m) && nat_le v view)) || reaches self.old.furthest v m)) }
        ensures same { IfOk result (λ fresh. self.new.f ≡ self.old.f) }
    {
        if self.get(view, member).is_some() {
            return Ok(false);
        }
        self.reach.add(view, member)?;
        if let Err(refused) = self.changes.insert((view, member), change) {
            return Err(AllocError::from(refused).into());
        }
        Ok(true)
    }

    /// The change of a member to a view.
    pub fn get(&self, view: u16, member: u16) -> Option<&Change>
        ensures { option_copied result ≡ change_in self.now.changes view member }
    {
        self.changes.get(&(view, member))
    }

    /// The greatest view that f+1 members have reached, by a change to it or to a later one.
    pub fn last_reached(&self) -> Option<u16>
        ensures { result ≡ last_below view_bound (is_joined self.now.f self.now.furthest) }
    {
        self.reach.last()
    }

    /// An entry with this digest may be proposed in the view,
    /// whatever was chosen in an earlier one.
    pub fn safe(&self, view: u16, digest: &[u8; 32]) -> bool
        ensures { result ≡ is_safe self.now.f (change_in self.now.changes view) view digest.now }
    {
        if self.free(view) {
            return true;
        }
        match self.last_echoed(view, digest) {
            Some(from) => self.count_allowed(view, from, digest) > 2 * self.f,
            None => false,
        }
    }

    /// The greatest view below from which on f+1 members echoed the digest.
    fn last_echoed(&self, view: u16, digest: &[u8; 32]) -> Option<u16>
        ensures { result ≡ last_below view
            (is_echoed self.now.f (change_in self.now.changes view) view digest.now) }
    {
        let mut low = 0;
        let mut high = view;
        while low < high {
            let middle = low + (high - low) / 2;
            if self.is_echoed(view, middle, digest) {
                low = middle + 1;
            } else {
                high = middle;
            }
        }
        low.checked_sub(1)
    }

    /// 2f+1 members have no prepared pair, so any entry may be proposed in the view.
    pub fn free(&self, view: u16) -> bool
        ensures { result ≡ is_free_view self.now.f (change_in self.now.changes view) }
    {
        self.count_free(view) > 2 * self.f
    }

    /// The prepared pair of a member's change to a view.
    pub fn pair(&self, view: u16, member: u16) -> Option<(u16, [u8; 32])>
        ensures { result ≡ pair_of (change_in self.now.changes view member) }
    {
        let change = self.get(view, member)?;
        change.prepared
    }

    /// f+1 members echoed the digest in a view from this one on.
    fn is_echoed(&self, view: u16, from: u16, digest: &[u8; 32]) -> bool
        ensures { result
            ≡ is_echoed self.now.f (change_in self.now.changes view) view digest.now from }
    {
        self.count_echoed(view, from, digest) > self.f
    }

    fn count_free(&self, view: u16) -> u16
        ensures { result ≡ count_below (3 * self.now.f + 1)
            (λ member. says_none (change_in self.now.changes view member)) }
    {
        let mut count = 0;
        for member in 0..3 * self.f + 1 {
            count += u16::from(claims::has_no_pair(self.get(view, member)));
        }
        count
    }

    fn count_allowed(&self, view: u16, from: u16, digest: &[u8; 32]) -> u16
        ensures { result ≡ count_below (3 * self.now.f + 1)
            (λ member. says_allowed from digest.now (change_in self.now.changes view member)) }
    {
        let mut count = 0;
        for member in 0..3 * self.f + 1 {
            count += u16::from(claims::allows(self.get(view, member), from, digest));
        }
        count
    }

    fn count_echoed(&self, view: u16, from: u16, digest: &[u8; 32]) -> u16
        ensures { result ≡ count_below (3 * self.now.f + 1)
            (λ member. says_echoed from view digest.now (change_in self.now.changes view member)) }
    {
        let mut count = 0;
        for member in 0..3 * self.f + 1 {
            count += u16::from(claims::lists_echo(self.get(view, member), from, view, digest));
        }
        count
    }
}

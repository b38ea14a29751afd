//! Changes to one view.
ghost use Rattle.std.specs.Prelude.{◌≡◌, ◌*◌, ◌≤◌, ◌<◌, ◌↔◌, IsTrue, not, is_some, IfOk};
ghost use Rattle.cs_order.specs.Limits.{view_bound};
ghost use Rattle.cs_order_rules.specs.Safe.{SafeAt, is_free_view, is_safe};
ghost use Rattle.cs_order_rules.specs.Rules.{pair_of};
ghost use Rattle.cs_change.specs.Kept.{told_change, with_change, none_told};

use crate::slot_changes::SlotChanges;
use cs_base::Memory;
use cs_order_rules::Change;
use std::alloc::Global;
use std::marker::Model;

/// The changes of the members to one view, the first of each.
///
/// After a want of memory they are not used again.
#[derive(Drop)]
pub struct Changes {
    view: u16,
    all: SlotChanges,
}

impl Model for Changes {
    ghost use Rattle.std.specs.Prelude.{◌≤◌};
    ghost use Rattle.cs_change.specs.Kept.{KeptChanges};

    ghost Value = { KeptChanges };

    ghost view = { λ s. record { f = s.all.f; view = s.view; changes = s.all.changes } };
}

impl Changes {
    /// No changes to a view above 0.
    pub fn new(alloc: Global, f: u16, view: u16) -> Result<Changes, Memory>
        requires few { f ≤ 5 }
        requires above { 1 ≤ view }
        requires below { view < view_bound }
        ensures { IfOk result (λ changes.
            (changes.f ≡ f) × (changes.view ≡ view) × (told_change changes ≡ none_told)) }
    {
        Ok(Changes {
            view,
            all: SlotChanges::new(alloc, f),
        })
    }

    /// Takes the change of a member. It is false exactly where the member gave one already.
    pub fn add(&mut self, member: u16, change: Change) -> Result<bool, Memory>
        requires { member ≤ 3 * self.old.f }
        ensures fresh { IfOk result (λ fresh. fresh ≡ not (is_some (told_change self.old member))) }
        ensures now { IfOk result (λ fresh.
            told_change self.new ≡ with_change fresh (told_change self.old) member change) }
        ensures same { IfOk result (λ fresh.
            (self.new.f ≡ self.old.f) × (self.new.view ≡ self.old.view)) }
    {
        self.all.add(self.view, member, change)
    }

    /// An entry with this digest may be proposed in the view,
    /// whatever was chosen in an earlier one.
    pub fn safe(&self, digest: &[u8; 32]) -> bool
        ensures test { result ≡ is_safe self.now.f (told_change self.now) self.now.view digest.now }
        ensures readable { IsTrue result
            ↔ SafeAt self.now.f (told_change self.now) self.now.view digest.now }
    {
        self.all.safe(self.view, digest)
    }

    /// 2f+1 members have no prepared pair, so any entry may be proposed.
    pub fn free(&self) -> bool
        ensures { result ≡ is_free_view self.now.f (told_change self.now) }
    {
        self.all.free(self.view)
    }

    /// The prepared pair of a member: none where it gave no change, or one without a pair.
    pub fn pair(&self, member: u16) -> Option<(u16, [u8; 32])>
        ensures { result ≡ pair_of (told_change self.now member) }
    {
        self.all.pair(self.view, member)
    }
}

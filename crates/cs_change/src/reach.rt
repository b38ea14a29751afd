//! How far the members of a shard have come in a slot.
ghost use Rattle.std.specs.Prelude.{◌≡◌, ℕ, ◌+◌, ◌*◌, ◌≤◌, ◌<◌, ◌==◌, true, false, nat_le, ◌&&◌, ◌||◌, [], OnOk};
ghost use Rattle.cs_order.specs.Counts.{count_below, last_below};
ghost use Rattle.cs_order.specs.Limits.{view_bound};
ghost use Rattle.cs_change.specs.Kept.{reaches, is_joined};

use cs_base::{Memory, VIEW_BOUND};
use std::alloc::{AllocError, Global};
use std::collections::BTreeMap;
use std::marker::Model;

/// The greatest view to which each member gave a change, and the views that f+1 members have
/// reached, which are kept ready: they only grow, and no f members can make them.
#[derive(Drop)]
pub struct Reach {
    f: u16,
    furthest: BTreeMap<u16, u16>,
    /// f+1 members have reached each view below this one, and none from this one on.
    end: u16,
}

impl Model for Reach {
    ghost use Rattle.std.specs.Prelude.{◌≤◌};
    ghost use Rattle.cs_change.specs.Kept.{KeptReach, EndsAt};

    ghost Value = { KeptReach };

    ghost view = { λ r. record { f = r.f; furthest = r.furthest.entries } };

    ghost invariant = { λ r. (r.f ≤ 5) × EndsAt r.f r.furthest.entries r.end };
}

impl Reach {
    /// No member has gone beyond view 0.
    pub fn new(alloc: Global, f: u16) -> Reach
        requires { f ≤ 5 }
        ensures { (result.f ≡ f) × (result.furthest ≡ []) }
    {
        Reach {
            f,
            furthest: BTreeMap::new(alloc),
            end: 0,
        }
    }

    /// A member gave a change to a view.
    pub fn add(&mut self, view: u16, member: u16) -> Result<(), Memory>
        ensures reached { OnOk result ((v m : ℕ) →
            reaches self.new.furthest v m
            ≡ (((member == m) && nat_le v view) || reaches self.old.furthest v m)) }
        ensures same { self.new.f ≡ self.old.f }
    {
        if reaches(&self.furthest, view, member) {
            return Ok(());
        }
        if let Err(refused) = self.furthest.insert(member, view) {
            return Err(AllocError::from(refused).into());
        }
        self.end = end_from(&self.furthest, self.f, self.end);
        Ok(())
    }

    /// The greatest view that f+1 members have reached.
    pub fn last(&self) -> Option<u16>
        ensures { result ≡ last_below view_bound (is_joined self.now.f self.now.furthest) }
    {
        self.end.checked_sub(1)
    }
}

/// The first view, of this one and the later ones, that f+1 members haven't reached.
fn end_from(furthest: &BTreeMap<u16, u16>, f: u16, from: u16) -> u16
    requires few { f ≤ 5 }
    requires small { from ≤ view_bound }
    ensures bound { result ≤ view_bound }
    ensures kept { from ≤ result }
    ensures joined { (view : ℕ) → from ≤ view → view < result →
        is_joined f furthest.now.entries view ≡ true }
    ensures end { result < view_bound → is_joined f furthest.now.entries result ≡ false }
{
    for view in from..VIEW_BOUND {
        if !is_joined(furthest, f, view) {
            return view;
        }
    }
    VIEW_BOUND
}

/// f+1 members have reached the view.
fn is_joined(furthest: &BTreeMap<u16, u16>, f: u16, view: u16) -> bool
    requires { f ≤ 5 }
    ensures { result ≡ is_joined f furthest.now.entries view }
{
    count_reached(furthest, f, view) > f
}

fn count_reached(furthest: &BTreeMap<u16, u16>, f: u16, view: u16) -> u16
    requires { f ≤ 5 }
    ensures { result ≡ count_below (3 * f + 1) (reaches furthest.now.entries view) }
{
    let mut count = 0;
    for member in 0..3 * f + 1 {
        count += u16::from(reaches(furthest, view, member));
    }
    count
}

/// The member gave a change to this view or a later one.
fn reaches(furthest: &BTreeMap<u16, u16>, view: u16, member: u16) -> bool
    ensures { result ≡ reaches furthest.now.entries view member }
{
    match furthest.get(&member) {
        Some(last) => view <= *last,
        None => false,
    }
}

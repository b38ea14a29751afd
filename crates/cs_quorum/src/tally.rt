//! Tallies.
ghost use Rattle.std.specs.Prelude.{◌≡◌, ℕ, ◌==◌, ◌||◌, ◌≤◌, ◌<◌, not, false};
ghost use Rattle.cs_order.specs.Counts.{count_below};
ghost use Rattle.cs_quorum.specs.Marks.{members_of, is_marked, is_in_either};

use std::marker::Model;

/// The members of a shard that are marked, out of at most 16. It is copied, and takes no memory.
#[derive(Clone, Copy, Debug, PartialEq, Eq)]
pub struct Tally {
    members: u16,
    mask: u16,
}

impl Model for Tally {
    ghost use Rattle.cs_quorum.specs.Marks.{Marks};

    ghost Value = { Marks };

    ghost view = { λ t. record { members = t.members; mask = t.mask } };

    ghost inverse = { λ m. record { members = m.members; mask = m.mask } };

    ghost use Rattle.cs_quorum.specs.Marks.{IsWithin};

    ghost invariant = { λ t. IsWithin t.members t.mask };
}

impl Tally {
    /// None of so many members is marked.
    pub fn new(members: u16) -> Tally
        requires some { 1 ≤ members }
        requires few { members ≤ 16 }
        ensures members { members_of result ≡ members }
        ensures unmarked { (member : ℕ) → is_marked result member ≡ false }
    {
        Tally { members, mask: 0 }
    }

    /// Marks a member, and says whether it was not marked before.
    pub fn mark(&mut self, member: u16) -> bool
        requires { member < members_of self.old }
        ensures fresh { result ≡ not (is_marked self.old member) }
        ensures marked { (other : ℕ) →
            is_marked self.new other ≡ ((other == member) || is_marked self.old other) }
        ensures members { members_of self.new ≡ members_of self.old }
    {
        let fresh = (self.mask >> member) % 2 == 0;
        self.mask |= 1 << member;
        fresh
    }

    /// How many members are marked.
    pub fn count(&self) -> u16
        ensures { result ≡ count_below (members_of self.now) (is_marked self.now) }
    {
        self.mask.count_ones() as u16
    }

    /// How many members are marked here or in the other, which is of as many members.
    pub fn merged(&self, other: &Tally) -> u16
        requires { members_of other.now ≡ members_of self.now }
        ensures { result ≡ count_below (members_of self.now) (is_in_either self.now other.now) }
    {
        (self.mask | other.mask).count_ones() as u16
    }
}

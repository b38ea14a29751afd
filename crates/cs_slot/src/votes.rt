//! Digests that members said, by view and member.
ghost use Rattle.std.specs.Prelude.{◌≡◌, ℕ, ◌≤◌, ◌<◌, not, is_some, IfOk, OnErr, []};
ghost use Rattle.cs_order_rules.specs.Slot.{quorum};
ghost use Rattle.cs_slot.specs.Kept.{said_in, said_in_view, lookup_with_vote};

use crate::rows::{Row, agreed, empty, said, with_said};
use cs_base::Memory;
use std::alloc::{AllocError, Global};
use std::collections::BTreeMap;
use std::marker::Model;

/// The votes of one kind, of which each member gives one in a view.
///
/// A call takes a number of steps that grows as the logarithm of the views in which there is a vote.
#[derive(Drop)]
pub struct Votes {
    rows: BTreeMap<u16, Row>,
}

impl Model for Votes {
    ghost use Rattle.cs_slot.specs.Kept.{Rows};

    ghost Value = { Rows };

    ghost view = { λ v. v.rows.entries };
}

impl Votes {
    /// No votes.
    pub fn new(alloc: Global) -> Self
        ensures { result ≡ [] }
    {
        Votes {
            rows: BTreeMap::new(alloc),
        }
    }

    /// What a member said in a view.
    pub fn get(&self, view: u16, member: u16) -> Option<[u8; 32]>
        ensures { result ≡ said_in_view self.now view member }
    {
        match self.rows.get(&view) {
            Some(row) => said(row, member),
            None => None,
        }
    }

    /// Adds a vote, and says whether it is the member's first in the view.
    pub fn add(&mut self, view: u16, member: u16, digest: [u8; 32]) -> Result<bool, Memory>
        requires { member < 16 }
        ensures fresh { IfOk result (λ fresh.
            fresh ≡ not (is_some (said_in_view self.old view member))) }
        ensures now { IfOk result (λ fresh.
            said_in_view self.new ≡ lookup_with_vote fresh (said_in_view self.old) view member digest) }
        ensures err { OnErr result (self.new ≡ self.old) }
    {
        if self.get(view, member).is_some() {
            return Ok(false);
        }
        let row = with_said(self.row(view), member, digest);
        if let Err(refused) = self.rows.insert(view, row) {
            return Err(AllocError::from(refused).into());
        }
        Ok(true)
    }

    fn row(&self, view: u16) -> Row
        ensures { (member : ℕ) → said_in result member ≡ said_in_view self.now view member }
    {
        match self.rows.get(&view) {
            Some(row) => *row,
            None => empty(),
        }
    }

    /// The digest that 2f+1 members said in a view.
    pub fn quorum(&self, f: u16, view: u16) -> Option<[u8; 32]>
        requires { f ≤ 5 }
        ensures { result ≡ quorum f (said_in_view self.now view) }
    {
        match self.rows.get(&view) {
            Some(row) => agreed(row, f),
            None => None,
        }
    }
}

//! The proposals of a slot.
ghost use Rattle.std.specs.Prelude.{◌≡◌, not, is_some, IfOk, [], option_copied};
ghost use Rattle.cs_order.specs.Counts.{first_below};
ghost use Rattle.cs_order.specs.Limits.{view_bound};
ghost use Rattle.cs_order_rules.specs.Slot.{with_digest};
ghost use Rattle.cs_slot.specs.Kept.{entry_kept, with_entry, comes_first};

use crate::entries::Entries;
use cs_base::{Memory, VIEW_BOUND};
use cs_order::Proposed;
use std::alloc::{AllocError, Global};
use std::collections::BTreeMap;
use std::marker::Model;

/// The proposals of a slot, of which there is one in a view.
///
/// A call takes a number of steps that grows as the logarithm of the proposals. After a want of
/// memory none is kept.
#[derive(Drop)]
pub struct Proposals {
    entries: Entries,
    /// The least view in which each digest was proposed.
    firsts: BTreeMap<[u8; 32], u16>,
}

impl Model for Proposals {
    ghost use Rattle.std.specs.Prelude.{ℕ, List};
    ghost use Rattle.cs_order.specs.declared.proposed.Proposed.{Proposed};
    ghost use Rattle.cs_slot.specs.Kept.{AreFirsts};

    ghost Value = { List (ℕ × Proposed) };

    ghost view = { λ p. p.entries };

    ghost invariant = { λ p. AreFirsts p.firsts.entries p.entries };
}

impl Proposals {
    /// No proposals.
    pub fn new(alloc: Global) -> Self
        ensures { result ≡ [] }
    {
        Proposals {
            entries: Entries::new(alloc),
            firsts: BTreeMap::new(alloc),
        }
    }

    /// The proposal of a view.
    pub fn get(&self, view: u16) -> Option<&Proposed>
        ensures { option_copied result ≡ entry_kept self.now view }
    {
        self.entries.get(view)
    }

    /// Adds a proposal, and says whether it is the first of its view.
    pub fn add(&mut self, view: u16, entry: Proposed) -> Result<bool, Memory>
        ensures fresh { IfOk result (λ fresh. fresh ≡ not (is_some (entry_kept self.old view))) }
        ensures now { IfOk result (λ fresh.
            entry_kept self.new ≡ with_entry fresh (entry_kept self.old) view entry) }
    {
        let digest = entry.digest;
        let is_first = comes_first(view, self.firsts.get(&digest));
        let fresh = self.entries.add(view, entry)?;
        if !fresh || !is_first {
            return Ok(fresh);
        }
        if let Err(refused) = self.firsts.insert(digest, view) {
            self.firsts.clear();
            self.entries.clear();
            return Err(AllocError::from(refused).into());
        }
        Ok(true)
    }

    /// The proposal of least view that has the digest.
    pub fn with_digest(&self, digest: &[u8; 32]) -> Option<&Proposed>
        ensures { option_copied result
            ≡ first_below view_bound (λ view. with_digest digest.now (entry_kept self.now view)) }
    {
        match self.firsts.get(digest) {
            Some(first) => self.entries.get(*first),
            None => None,
        }
    }
}

/// The view comes before the first one, if there is one, and is one of those that there are.
fn comes_first(view: u16, first: Option<&u16>) -> bool
    ensures { result ≡ comes_first view (option_copied first.entry) }
{
    match first {
        Some(first) => view < *first,
        None => view < VIEW_BOUND,
    }
}

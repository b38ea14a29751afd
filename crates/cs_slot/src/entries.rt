//! Entries by a view, or by a member.
ghost use Rattle.std.specs.Prelude.{◌≡◌, not, is_some, IfOk, OnErr, [], option_copied};
ghost use Rattle.cs_order_rules.specs.Slot.{with_digest, is_entry};
ghost use Rattle.cs_slot.specs.Kept.{entry_kept, with_entry};

use cs_base::Memory;
use cs_order::Proposed;
use std::alloc::{AllocError, Global};
use std::collections::BTreeMap;
use std::marker::Model;

/// Entries, of which there is one under each number.
///
/// A call takes a number of steps that grows as the logarithm of the entries.
#[derive(Drop)]
pub struct Entries {
    entries: BTreeMap<u16, Proposed>,
}

impl Model for Entries {
    ghost use Rattle.std.specs.Prelude.{ℕ, List};
    ghost use Rattle.cs_order.specs.declared.proposed.Proposed.{Proposed};

    ghost Value = { List (ℕ × Proposed) };

    ghost view = { λ e. e.entries.entries };
}

impl Entries {
    /// No entries.
    pub fn new(alloc: Global) -> Self
        ensures { result ≡ [] }
    {
        Entries {
            entries: BTreeMap::new(alloc),
        }
    }

    /// The entry under a number.
    pub fn get(&self, key: u16) -> Option<&Proposed>
        ensures { option_copied result ≡ entry_kept self.now key }
    {
        self.entries.get(&key)
    }

    /// Adds an entry, and says whether it is the first under the number.
    pub fn add(&mut self, key: u16, entry: Proposed) -> Result<bool, Memory>
        ensures fresh { IfOk result (λ fresh. fresh ≡ not (is_some (entry_kept self.old key))) }
        ensures now { IfOk result (λ fresh.
            entry_kept self.new ≡ with_entry fresh (entry_kept self.old) key entry) }
        ensures err { OnErr result (self.new ≡ self.old) }
    {
        if self.get(key).is_some() {
            return Ok(false);
        }
        if let Err(refused) = self.entries.insert(key, entry) {
            return Err(AllocError::from(refused).into());
        }
        Ok(true)
    }

    /// Takes all entries out.
    pub fn clear(&mut self)
        ensures { self.new ≡ [] }
    {
        self.entries.clear();
    }

    /// The entry under a number, where it has the digest.
    pub fn with_digest(&self, key: u16, digest: &[u8; 32]) -> Option<&Proposed>
        ensures { option_copied result ≡ with_digest digest.now (entry_kept self.now key) }
    {
        match self.get(key) {
            Some(entry) if entry.digest == *digest => Some(entry),
            _ => None,
        }
    }

    /// The entry under a number is this one.
    pub fn is_at(&self, key: u16, entry: &Proposed) -> bool
        ensures { result ≡ is_entry entry.now (entry_kept self.now key) }
    {
        match self.get(key) {
            Some(other) => other.digest == entry.digest
                && other.bytes.as_slice() == entry.bytes.as_slice(),
            None => false,
        }
    }
}

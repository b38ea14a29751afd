//! A log that is cut.
ghost use Rattle.std.specs.Prelude.{◌≡◌, ◌+◌, ◌≤◌, ◌<◌, [], ◌∷◌, ◌++◌, List, length, max, OnOk, option_copied};
ghost use Rattle.cs_order.specs.declared.proposed.Proposed.{Proposed};
ghost use Rattle.cs_order.specs.Deeds.{entry_from};
ghost use Rattle.cs_order.specs.Kept.{KeepsFrom};
ghost use Rattle.cs_order.specs.Limits.{last_slot};

use crate::proposed::Proposed;
use cs_base::Memory;
use std::alloc::{AllocError, Global};
use std::collections::VecDeque;

/// The entries of a log from a slot on. Those before it are freed.
#[derive(Drop)]
pub struct KeptLog {
    first: u64,
    entries: VecDeque<Proposed>,
    ghost short: { first + length entries.items ≤ last_slot },
}

impl KeptLog {
    /// A log without entries.
    pub fn new(alloc: Global) -> Self
        ensures first { result.first ≡ 0 }
        ensures keeps { KeepsFrom result.first result.entries.items [] }
    {
        KeptLog {
            first: 0,
            entries: VecDeque::new(alloc),
        }
    }

    /// The slot of the entry that is pushed next.
    pub fn next(&self) -> u64
        ensures slot { result ≡ self.now.first + length self.now.entries.items }
        ensures bound { result ≤ last_slot }
        ensures keeps { (log : List Proposed) →
            KeepsFrom self.now.first self.now.entries.items log → result ≡ length log }
    {
        self.first + self.entries.len() as u64
    }

    /// The entry of a slot, unless it was cut.
    pub fn get(&self, slot: u64) -> Option<&Proposed>
        ensures { (log : List Proposed) →
            KeepsFrom self.now.first self.now.entries.items log →
            option_copied result ≡ entry_from self.now.first log slot }
    {
        if slot < self.first {
            return None;
        }
        self.entries.get((slot - self.first) as usize)
    }

    /// Puts an entry to the end.
    pub fn push(&mut self, entry: Proposed) -> Result<(), Memory>
        requires room { self.old.first + length self.old.entries.items < last_slot }
        ensures first { OnOk result (self.new.first ≡ self.old.first) }
        ensures next { OnOk result (self.new.first + length self.new.entries.items
            ≡ self.old.first + length self.old.entries.items + 1) }
        ensures keeps { (log : List Proposed) →
            KeepsFrom self.old.first self.old.entries.items log →
            OnOk result (KeepsFrom self.new.first self.new.entries.items (log ++ entry ∷ [])) }
    {
        if let Err(refused) = self.entries.push_back(entry) {
            return Err(AllocError::from(refused).into());
        }
        Ok(())
    }

    /// Gives up the entries of the slots below this one, of which no more go than there are.
    pub fn cut(&mut self, slot: u64)
        ensures next { self.new.first + length self.new.entries.items
            ≡ self.old.first + length self.old.entries.items }
        ensures keeps { (log : List Proposed) →
            KeepsFrom self.old.first self.old.entries.items log → slot ≤ length log →
            (self.new.first ≡ max slot self.old.first)
            × KeepsFrom self.new.first self.new.entries.items log }
    {
        while self.first < slot && self.entries.pop_front().is_some() {
            self.first += 1;
        }
    }
}

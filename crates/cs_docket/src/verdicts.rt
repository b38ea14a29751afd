//! The transactions on which one verdict was given.
ghost use Rattle.std.specs.Prelude.{◌≡◌, ◌<◌, ◌≤◌, Bool, IsTrue, length};
ghost use Rattle.cs_tx_types.specs.declared.transaction.Tx.{Tx};
ghost use Rattle.cs_docket.specs.Judging.{IsJudged, AllJudged};

use crate::judged::Judged;
use cs_base::Memory;
use cs_tx::Digest;
use indexmap::IndexMap;
use std::alloc::Global;

/// The last transactions on which the same verdict was given, and the place of each by its digest.
#[derive(Drop)]
pub struct Verdicts {
    pub judged: Vec<Judged>,
    places: IndexMap<Digest, usize>,
    /// The place of the oldest, once all places are taken.
    next: usize,
}

impl Verdicts {
    /// None yet.
    pub fn new(alloc: Global) -> Verdicts
        ensures { length result.judged.items ≡ 0 }
    {
        Verdicts {
            judged: Vec::new(alloc),
            places: IndexMap::new(alloc),
            next: 0,
        }
    }

    /// Whether the transaction is one of them.
    pub fn has(&self, asked: &Judged) -> bool
        ensures { (approves : Tx → Bool) (verdict : Bool) →
            AllJudged approves verdict self.now.judged.items → IsTrue result →
            IsJudged approves verdict asked.now.encoding.items }
    {
        let Some(place) = self.places.get(&asked.digest) else {
            return false;
        };
        match self.judged.as_slice().get(*place) {
            Some(judged) => judged.is(asked),
            None => false,
        }
    }

    /// Keeps one more, in the place of the oldest where all places are taken.
    pub fn keep(&mut self, judged: Judged, most: usize) -> Result<(), Memory>
        requires some { 0 < most }
        requires few { length self.old.judged.items ≤ most }
        ensures few { length self.new.judged.items ≤ most }
        ensures all { (approves : Tx → Bool) (verdict : Bool) →
            AllJudged approves verdict self.old.judged.items →
            IsJudged approves verdict judged.encoding.items →
            AllJudged approves verdict self.new.judged.items }
    {
        if self.judged.len() < most {
            self.places.insert(judged.digest, self.judged.len())?;
            self.judged.push(judged)?;
            return Ok(());
        }
        if self.next >= self.judged.len() {
            self.next = 0;
        }
        let next = self.next;
        self.places.swap_remove(&self.judged[next].digest);
        self.places.insert(judged.digest, next)?;
        self.judged[next] = judged;
        self.next = next + 1;
        Ok(())
    }
}

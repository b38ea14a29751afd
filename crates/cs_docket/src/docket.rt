//! A judge, and what he said.
ghost use Rattle.std.specs.Prelude.{◌≡◌, IfOk, IfSome};
ghost use Rattle.cs_tx_types.specs.Transaction.{TxFits};
ghost use Rattle.cs_docket.specs.Judging.{IsJudged};

use crate::judged::Judged;
use crate::limits::{MOST_APPROVED, MOST_DENIED};
use crate::verdicts::Verdicts;
use cs_base::Memory;
use cs_tx::{Judge, Tx};
use std::alloc::Global;
use std::marker::Model;

/// A judge, and the last transactions that he denied and that he approved. Contracts see the judge.
#[derive(Drop)]
pub struct Docket<J: Judge + Drop> {
    judge: J,
    denied: Verdicts,
    approved: Verdicts,
}

impl<J: Judge + Drop> Model for Docket<J> {
    ghost use Rattle.cs_docket.specs.Judging.{IsDocket};

    ghost Value = { J };

    ghost coded = { J.code };

    ghost view = { λ d. d.judge };

    ghost invariant = { λ d. IsDocket (J.is_approved d.judge) d.denied.judged.items d.approved.judged.items };
}

impl<J: Judge + Drop> Docket<J> {
    /// The judge, who said nothing yet.
    pub fn new(alloc: Global, judge: J) -> Docket<J>
        ensures { result ≡ judge }
    {
        Docket {
            judge,
            denied: Verdicts::new(alloc),
            approved: Verdicts::new(alloc),
        }
    }

    /// The judge.
    pub fn judge(&self) -> &J
        ensures { result.now ≡ self.now }
    {
        &self.judge
    }

    /// The verdict on a transaction, where it is kept.
    fn verdict(&self, asked: &Judged) -> Option<bool>
        ensures { IfSome result (λ verdict.
            IsJudged (J.is_approved self.now) verdict asked.now.encoding.items) }
    {
        if self.denied.has(asked) {
            return Some(false);
        }
        if self.approved.has(asked) {
            return Some(true);
        }
        None
    }

    /// Keeps a transaction under the verdict on it.
    fn keep(&mut self, judged: Judged, verdict: bool) -> Result<(), Memory>
        requires { IsJudged (J.is_approved self.old) verdict judged.encoding.items }
        ensures { self.new ≡ self.old }
    {
        if verdict {
            self.approved.keep(judged, MOST_APPROVED)
        } else {
            self.denied.keep(judged, MOST_DENIED)
        }
    }

    /// Whether the transaction is approved. One whose verdict is kept isn't judged again.
    pub fn approves(&mut self, alloc: Global, tx: &Tx) -> Result<bool, Memory>
        requires { TxFits tx.now }
        ensures says { IfOk result (λ yes. yes ≡ J.is_approved self.old tx.now) }
        ensures judge { self.new ≡ self.old }
    {
        let asked = Judged::of(alloc, tx)?;
        if let Some(verdict) = self.verdict(&asked) {
            return Ok(verdict);
        }
        let verdict = self.judge.approves(alloc, tx)?;
        self.keep(asked, verdict)?;
        Ok(verdict)
    }
}

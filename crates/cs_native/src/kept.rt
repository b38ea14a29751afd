//! A rule before a clerk.
ghost use Rattle.std.specs.Prelude.{◌≡◌, IfOk};
ghost use Rattle.cs_tx_types.specs.Transaction.{TxFits};
ghost use Rattle.cs_approve.specs.Approval.{is_said_of_each};

use crate::rule::Rule;
use crate::view::NativeView;
use cs_base::Memory;
use cs_tx::{Clerk, Judge};
use cs_tx_types::Tx;
use std::alloc::Global;

/// A rule before a clerk of whom all else is asked. That the rule's check answers exactly what the
/// rule says of each view is what its `impl Rule` was proved to keep to.
#[derive(Drop)]
pub struct Kept<C, P> {
    inner: C,
    rule: P,
}

impl<C, P: Rule> Kept<C, P> {
    /// The rule before this clerk.
    pub fn new(inner: C, rule: P) -> Kept<C, P>
        ensures { result.inner ≡ inner }
    {
        Kept { inner, rule }
    }
}

impl<C: Clerk, P: Rule> Clerk for Kept<C, P> {
    ghost use Rattle.cs_native.specs.Ruling.{is_said_behind};

    ghost is_said = { λ kept tx place.
        is_said_behind P.rule_id P.is_met (C.is_said kept.inner) tx place };

    fn says(&self, alloc: Global, tx: &Tx, trace: usize) -> Result<bool, Memory> {
        match tx.traces.as_slice().get(trace) {
            Some(standing) if standing.contract == self.rule.id() => {
                Ok(self.rule.check(&NativeView::new(standing)))
            }
            _ => self.inner.says(alloc, tx, trace),
        }
    }
}

impl<C: Clerk, P: Rule> Judge for Kept<C, P> {
    ghost use Rattle.cs_approve.specs.Approval.{is_said_of_each};
    ghost use Rattle.cs_native.specs.Ruling.{is_said_behind};

    ghost is_approved = { λ kept tx.
        is_said_of_each (is_said_behind P.rule_id P.is_met (C.is_said kept.inner)) tx };

    fn approves(&self, alloc: Global, tx: &Tx) -> Result<bool, Memory> {
        says_each(alloc, self, tx)
    }
}

// Whether a clerk says yes of each trace.
fn says_each<C: Clerk>(alloc: Global, clerk: &C, tx: &Tx) -> Result<bool, Memory>
    requires { TxFits tx.now }
    ensures { IfOk result (λ yes. yes ≡ is_said_of_each (C.is_said clerk.now) tx.now) }
{
    for place in 0..tx.traces.len() {
        let yes = clerk.says(alloc, tx, place)?;
        if !yes {
            return Ok(false);
        }
    }
    Ok(true)
}

//! The judgement of a book on transactions.
ghost use Rattle.std.specs.Prelude.{◌≡◌, ◌<◌, IfOk};
ghost use Rattle.cs_tx_types.specs.declared.transaction.Tx.{Tx as AnyTx};
ghost use Rattle.cs_tx_types.specs.Transaction.{TraceFits};
ghost use Rattle.cs_tx.specs.Token.{token_id};
ghost use Rattle.cs_eval_law.specs.Checks.{says};
ghost use Rattle.cs_approve.specs.Books.{Contracts};
ghost use Rattle.cs_approve.specs.Approval.{is_trace_approved, is_approved, is_said, is_said_of_each};
ghost use Rattle.cs_approve.specs.Seen.{view_of_trace};

use crate::book::Book;
use crate::token::is_transfer;
use crate::views::lend_view;
use cs_base::Memory;
use cs_eval_check::check_lent;
use cs_eval_values::Steps;
use cs_tx::{Clerk, Judge, id_of_token};
use cs_tx_types::{Trace, Tx};
use cs_tx_value::Digest;
use cs_types::Checked;
use std::alloc::Global;
use std::marker::Brand;
use std::sync::ledger::{Blank, Ledger};

// Whether the check of a trace's method says yes, where this counts what it spends.
fn says_in<L: Ledger>(
    alloc: Global,
    checked: &Checked,
    traces: &[Trace],
    trace: &Trace,
    blank: Blank,
) -> Result<bool, Memory>
    requires name { blank.name ≡ L.name }
    requires parts { blank.parts ≡ L.parts }
    requires some { 0 < L.parts }
    requires fits { TraceFits trace.now }
    ensures { IfOk result (λ yes. yes
        ≡ says checked.now.contract trace.now.method (view_of_trace traces.now trace.now)) }
{
    let view = lend_view(alloc, traces, trace)?;
    let mut steps: Steps<L> = Steps::new(blank);
    match str::from_utf8(trace.method.as_slice()) {
        Ok(method) => check_lent(alloc, checked, method, &view, &mut steps),
        // A name is of letters, digits and `_`.
        Err(_) => unreachable!(),
    }
}

// The same; nobody asks what the check spends.
fn says_yes(
    alloc: Global,
    checked: &Checked,
    traces: &[Trace],
    trace: &Trace,
) -> Result<bool, Memory>
    requires { TraceFits trace.now }
    ensures { IfOk result (λ yes. yes
        ≡ says checked.now.contract trace.now.method (view_of_trace traces.now trace.now)) }
{
    says_in::<Brand>(alloc, checked, traces, trace, Blank::new(1))
}

impl Book {
    // Whether the check of a trace among these says yes; the id of `token` is handed in.
    fn approves_beside(
        &self,
        alloc: Global,
        token: &Digest,
        traces: &[Trace],
        trace: &Trace,
    ) -> Result<bool, Memory>
        requires token { token.now ≡ token_id }
        requires fits { TraceFits trace.now }
        ensures { IfOk result (λ yes. yes ≡ is_trace_approved self.now traces.now trace.now) }
    {
        if trace.contract == *token {
            return Ok(is_transfer(trace));
        }
        match self.contract(&trace.contract) {
            Some(checked) => says_yes(alloc, checked, traces, trace),
            None => Ok(false),
        }
    }

    /// Whether the check of a trace among these says yes.
    pub fn approves_trace(
        &self,
        alloc: Global,
        traces: &[Trace],
        trace: &Trace,
    ) -> Result<bool, Memory>
        requires { TraceFits trace.now }
        ensures { IfOk result (λ yes. yes ≡ is_trace_approved self.now traces.now trace.now) }
    {
        self.approves_beside(alloc, &id_of_token(), traces, trace)
    }
}

impl Judge for Book {
    ghost use Rattle.cs_approve.specs.Approval.{is_approved};

    ghost is_approved = { λ book tx. is_approved book tx };

    fn approves(&self, alloc: Global, tx: &Tx) -> Result<bool, Memory> {
        let token = id_of_token();
        let traces = tx.traces.as_slice();
        for trace in traces {
            if !self.approves_beside(alloc, &token, traces, trace)? {
                return Ok(false);
            }
        }
        Ok(true)
    }
}

impl Clerk for Book {
    ghost use Rattle.cs_approve.specs.Approval.{is_said};

    ghost is_said = { λ book tx place. is_said book tx place };

    fn says(&self, alloc: Global, tx: &Tx, trace: usize) -> Result<bool, Memory> {
        let traces = tx.traces.as_slice();
        self.approves_trace(alloc, traces, &traces[trace])
    }
}

/// What a book approves is that of whose each trace it says yes.
pub fn books_approve_what_they_say()
    ensures { (contracts : Contracts) (tx : AnyTx)
        → is_approved contracts tx ≡ is_said_of_each (is_said contracts) tx }
{}

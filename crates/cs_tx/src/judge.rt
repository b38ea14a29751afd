//! Who says whether a transaction is approved.
ghost use Rattle.std.specs.Prelude.{◌≡◌, ◌<◌, ℕ, Bool, length, IfOk};
ghost use Rattle.cs_tx_types.specs.declared.transaction.Tx.{Tx as AnyTx};
ghost use Rattle.cs_tx_types.specs.Transaction.{TxFits};

use cs_base::Memory;
use cs_tx_types::Tx;
use std::alloc::Global;

/// Approves transactions: the check of each trace has to say yes.
pub trait Judge {
    /// The transaction is approved.
    ghost is_approved: { Self → AnyTx → Bool };

    /// Whether the transaction is approved. Every answer on one transaction is the same.
    fn approves(&self, alloc: Global, tx: &Tx) -> Result<bool, Memory>
        requires { TxFits tx.now }
        ensures { IfOk result (λ yes. yes ≡ is_approved self.now tx.now) };
}

impl<J: Judge> Judge for &J {
    ghost is_approved = { λ judge tx. J.is_approved judge.now tx };

    fn approves(&self, alloc: Global, tx: &Tx) -> Result<bool, Memory> {
        (**self).approves(alloc, tx)
    }
}

/// Says of one trace of a transaction whether its check says yes.
pub trait Clerk {
    /// The check of the trace in this place of the transaction says yes.
    ghost is_said: { Self → AnyTx → ℕ → Bool };

    /// Whether the check of the trace in this place says yes. Every answer on one trace of one
    /// transaction is the same.
    fn says(&self, alloc: Global, tx: &Tx, trace: usize) -> Result<bool, Memory>
        requires fits { TxFits tx.now }
        requires there { trace < length tx.now.traces }
        ensures { IfOk result (λ yes. yes ≡ is_said self.now tx.now trace) };
}

impl<C: Clerk> Clerk for &C {
    ghost is_said = { λ clerk tx trace. C.is_said clerk.now tx trace };

    fn says(&self, alloc: Global, tx: &Tx, trace: usize) -> Result<bool, Memory> {
        (**self).says(alloc, tx, trace)
    }
}

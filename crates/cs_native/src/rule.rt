//! Rules: which traces of one id are approved.
ghost use Rattle.std.specs.Prelude.{◌≡◌, ℕ, Bool, List};
ghost use Rattle.cs_tx_types.specs.declared.trace.Trace.{Trace as AnyTrace};

use crate::view::NativeView;
use cs_tx_value::Digest;

/// A definition of which traces are approved, and the checker that answers exactly that.
pub trait Rule {
    /// The id under which the rule is called.
    ghost rule_id: { List ℕ };

    /// The trace is approved.
    ghost is_met: { AnyTrace → Bool };

    /// The id under which the rule is called.
    fn id(&self) -> Digest
        ensures { result ≡ rule_id };

    /// Whether the trace that is shown is approved. It may be asked of every view.
    fn check(&self, view: &NativeView<'_>) -> bool
        ensures { result ≡ is_met view.now };
}

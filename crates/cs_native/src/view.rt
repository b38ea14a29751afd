//! What a checker looks at.
ghost use Rattle.std.specs.Prelude.{◌≡◌, ◌≤◌, length};
ghost use Rattle.cs_tx_types.specs.declared.limits.TheConstants.{MOST_TRACE_OBJECTS};
ghost use Rattle.cs_tx_types.specs.Transaction.{TraceFits};

use cs_tx_types::Trace;
use cs_tx_value::{Digest, Object, Value};
use std::marker::Model;

/// A trace that fits, lent to a checker part by part.
#[derive(Drop)]
pub struct NativeView<'a> {
    trace: &'a Trace,
}

impl<'a> Model for NativeView<'a> {
    ghost use Rattle.cs_tx_types.specs.declared.trace.Trace.{Trace};
    ghost use Rattle.cs_tx_types.specs.contracts.trace.Trace as traces;
    ghost use Rattle.cs_tx_types.specs.Transaction.{TraceFits};

    ghost Value = { Trace };

    ghost coded = { traces.the_row.coded };

    ghost view = { λ v. v.trace.now };

    ghost invariant = { λ v. TraceFits v.trace.now };
}

impl<'a> NativeView<'a> {
    /// Of a trace that fits.
    pub fn new(trace: &'a Trace) -> NativeView<'a>
        requires { TraceFits trace.now }
        ensures { result ≡ trace.now }
    {
        NativeView { trace }
    }

    /// That the trace fits.
    ///
    /// It does nothing: its contract is what a caller has by calling it.
    pub fn fits(&self)
        ensures { TraceFits self.now }
    {
        // A field that is used brings in what is known of the struct.
        let _ = &self.trace;
    }

    /// The id that the trace calls.
    pub fn contract(&self) -> &'a Digest
        ensures { result.now ≡ self.now.contract }
    {
        &self.trace.contract
    }

    /// The method that it calls.
    pub fn method(&self) -> &'a [u8]
        ensures { result.now ≡ self.now.method }
    {
        self.trace.method.as_slice()
    }

    /// The objects that it uses up, beside their keys.
    pub fn inputs(&self) -> &'a [(Digest, Object)]
        ensures lent { result.now ≡ self.now.inputs }
        ensures few { length result.now ≤ MOST_TRACE_OBJECTS }
    {
        self.trace.inputs.as_slice()
    }

    /// The objects that it reads, beside their keys.
    pub fn references(&self) -> &'a [(Digest, Object)]
        ensures lent { result.now ≡ self.now.references }
        ensures few { length result.now ≤ MOST_TRACE_OBJECTS }
    {
        self.trace.references.as_slice()
    }

    /// What its caller handed in.
    pub fn parameters(&self) -> &'a [Value]
        ensures { result.now ≡ self.now.parameters }
    {
        self.trace.parameters.as_slice()
    }

    /// The objects that it makes.
    pub fn outputs(&self) -> &'a [Object]
        ensures lent { result.now ≡ self.now.outputs }
        ensures few { length result.now ≤ MOST_TRACE_OBJECTS }
    {
        self.trace.outputs.as_slice()
    }

    /// What it hands back.
    pub fn returns(&self) -> &'a [Value]
        ensures { result.now ≡ self.now.returns }
    {
        self.trace.returns.as_slice()
    }

    /// The numbers of the traces that it stands on.
    pub fn deps(&self) -> &'a [u8]
        ensures { result.now ≡ self.now.deps }
    {
        self.trace.deps.as_slice()
    }
}

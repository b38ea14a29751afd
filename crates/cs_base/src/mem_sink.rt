//! Sinks in memory.
ghost use Rattle.std.specs.Prelude.{◌≡◌, ℕ, ◌<◌, [], length, Some, None};
ghost use Rattle.cs_base.specs.Outside.{HasCause, Writes};

use crate::failures::Failures;
use crate::outside::{Put, Sink};
use std::alloc::Global;

/// A sink that keeps what is written to it. The listed calls fail, and no others, unless memory
/// runs out.
#[derive(Drop)]
pub struct MemSink {
    bytes: Vec<u8>,
    failures: Failures,
}

impl MemSink {
    ghost use Rattle.cs_base.specs.Failures.{uncalled};
    ghost use Rattle.cs_base.specs.InMemory.{sink_failures};

    /// A sink with nothing written, whose calls of these numbers, counted from 0, fail.
    pub fn new(alloc: Global, fails: Vec<u32>) -> Self
        ensures written { ⟦<MemSink as Sink>⟧.written result ≡ Some [] }
        ensures faults { ⟦<MemSink as Sink>⟧.faults result ≡ 0 }
        ensures failures { sink_failures result ≡ uncalled fails.items }
    {
        MemSink {
            bytes: Vec::new(alloc),
            failures: Failures::new(fails),
        }
    }

    /// What was written.
    pub fn bytes(&self) -> &[u8]
        ensures { ⟦<MemSink as Sink>⟧.written self.now ≡ Some result.now }
    {
        &self.bytes
    }
}

impl Sink for MemSink {
    ghost use Rattle.cs_base.specs.Failures.{CountsCall};
    ghost use Rattle.cs_base.specs.InMemory.{sink_written, sink_faults, sink_failures};

    ghost written = { sink_written };

    ghost faults = { sink_faults };

    fn write(&mut self, piece: &[u8]) -> Put
        requires { 0 < length piece.now }
        ensures bytes { Writes (sink_written self.old) (sink_written self.new) piece.now result }
        ensures cause { HasCause (sink_faults self.old) (sink_faults self.new)
            (result ≡ Put.Failed) }

        // Exactly the listed calls fail.
        ensures counted { CountsCall (sink_failures self.old) (sink_failures self.new)
            (result ≡ Put.Failed) }

        // Each piece is taken whole.
        ensures whole { (n : ℕ) → result ≡ Put.Took n → n ≡ length piece.now }
    {
        if self.failures.is_due() {
            return Put::Failed;
        }
        match self.bytes.extend_from_slice(piece) {
            Ok(()) => Put::Took(piece.len()),
            Err(_) => Put::Memory,
        }
    }
}

/// A sink that takes every piece whole, keeps nothing and never fails.
#[derive(Clone, Copy, Debug, PartialEq, Eq)]
pub struct NullSink;

impl Sink for NullSink {
    ghost written = { λ _. None };

    ghost faults = { λ _. 0 };

    fn write(&mut self, piece: &[u8]) -> Put
        requires { 0 < length piece.now }
        ensures bytes { Writes None None piece.now result }
        ensures cause { HasCause 0 0 (result ≡ Put.Failed) }
        ensures whole { result ≡ Put.Took (length piece.now) }
    {
        Put::Took(piece.len())
    }
}

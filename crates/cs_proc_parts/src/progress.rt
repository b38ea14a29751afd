//! How far a transaction and the procedure that runs in it have come.
ghost use Rattle.std.specs.Prelude.{◌≡◌};

use crate::keyed::Keyed;
use crate::outputs::Outputs;
use cs_base::Sequence;
use cs_eval_values::Names;
use cs_tx_types::Trace;
use cs_tx_value::{Digest, Object, Value};
use std::alloc::Global;
use std::mem;

/// The objects that no method has taken yet, and the traces of the methods that are through.
#[derive(Drop)]
pub struct Progress<'a> {
    pub inputs: Keyed<'a>,
    pub reads: Keyed<'a>,
    pub traces: Sequence<Trace>,
}

/// What a procedure works on: the names in sight, the slots that it fills, the numbers of the
/// traces that it called, and how far the transaction has come.
#[derive(Drop)]
pub struct Doing<'a> {
    pub names: Names<'a>,
    pub made: Outputs<'a>,
    pub deps: Sequence<u8>,
    pub progress: Progress<'a>,
}

/// What a trace has before its method runs: the objects that the method took, and its parameters.
#[derive(Drop)]
pub struct Front {
    pub inputs: Sequence<(Digest, Object)>,
    pub references: Sequence<(Digest, Object)>,
    pub parameters: Sequence<Value>,
}

/// A method before its first statement.
#[derive(Drop)]
pub struct Opened<'a> {
    pub front: Front,
    pub doing: Doing<'a>,
}

impl<'a> Progress<'a> {
    ghost use Rattle.cs_proc_parts.specs.Closing.{is_used_up};

    /// Whether no object is left over.
    pub fn is_used_up(&self) -> bool
        ensures { result ≡ is_used_up self.now }
    {
        self.inputs.is_empty() && self.reads.is_empty()
    }

    /// Takes it out: what stays is good for nothing.
    pub fn take(&mut self, alloc: Global) -> Progress<'a>
        ensures { result ≡ self.old }
    {
        let none = Progress {
            inputs: Keyed::new(&[]),
            reads: Keyed::new(&[]),
            traces: Sequence::new(alloc),
        };
        mem::replace(self, none)
    }
}

//! The names that a transaction uses.
ghost use Rattle.std.specs.Prelude.{◌≡◌, ◌≤◌, ◌++◌, length, map, IfOk, OnOk};
ghost use Rattle.std.specs.List.{flat_map};
ghost use Rattle.std.specs.List.{AllByRecursion};
ghost use Rattle.cs_tx_types.specs.declared.limits.TheConstants.{MOST_TRACES, MOST_TRACE_OBJECTS};
ghost use Rattle.cs_tx_types.specs.Transaction.{TraceFits};
ghost use Rattle.cs_tx.specs.Digest.{outputs_at, outputs_from};
ghost use Rattle.cs_tx.specs.Uses.{names};

use crate::digests::{output_name, tx_digest};
use cs_base::{Memory, Sequence};
use cs_tx_types::{Trace, Tx};
use cs_tx_value::{Digest, Object};
use std::alloc::Global;

/// The names of a transaction's objects, in the order of traces.
#[derive(Drop)]
pub struct Names {
    pub inputs: Sequence<Digest>,
    pub references: Sequence<Digest>,
    pub outputs: Sequence<Digest>,
}

fn add_names(found: &mut Sequence<Digest>, items: &[(Digest, Object)]) -> Result<(), Memory>
    ensures { OnOk result (found.new ≡ found.old ++ names items.now) }
{
    for item in items {
        found.push(item.0)?;
    }
    Ok(())
}

fn input_names(alloc: Global, traces: &[Trace]) -> Result<Sequence<Digest>, Memory>
    ensures { IfOk result (λ found. found ≡ names (flat_map (λ trace. trace.inputs) traces.now)) }
{
    let mut found = Sequence::new(alloc);
    for trace in traces {
        add_names(&mut found, trace.inputs.as_slice())?;
    }
    Ok(found)
}

fn reference_names(alloc: Global, traces: &[Trace]) -> Result<Sequence<Digest>, Memory>
    ensures { IfOk result (λ found.
        found ≡ names (flat_map (λ trace. trace.references) traces.now)) }
{
    let mut found = Sequence::new(alloc);
    for trace in traces {
        add_names(&mut found, trace.references.as_slice())?;
    }
    Ok(found)
}

/// Appends the names of a trace's outputs.
fn add_output_names(
    found: &mut Sequence<Digest>,
    digest: &Digest,
    trace: u16,
    outputs: &[Object],
) -> Result<(), Memory>
    requires { length outputs.now ≤ MOST_TRACE_OBJECTS }
    ensures { OnOk result
        (found.new ≡ found.old ++ names (outputs_at digest.now trace 0 outputs.now)) }
{
    for place in 0..outputs.len() {
        found.push(output_name(digest, trace, place as u16))?;
    }
    Ok(())
}

fn output_names(
    alloc: Global,
    digest: &Digest,
    traces: &[Trace],
) -> Result<Sequence<Digest>, Memory>
    requires few { length traces.now ≤ MOST_TRACES }
    requires fit { AllByRecursion TraceFits traces.now }
    ensures { IfOk result (λ found.
        found ≡
        names (flat_map (λ outputs. outputs) (outputs_from digest.now 0 traces.now))) }
{
    let mut found = Sequence::new(alloc);
    for number in 0..traces.len() {
        add_output_names(
            &mut found,
            digest,
            number as u16,
            traces[number].outputs.as_slice(),
        )?;
    }
    Ok(found)
}

impl Names {
    ghost use Rattle.std.specs.Prelude.{◌≡◌, IfOk};
    ghost use Rattle.cs_tx_types.specs.Transaction.{TxFits};
    ghost use Rattle.cs_tx.specs.Uses.{inputs_of, references_of, outputs_of, names};

    /// The names that a transaction uses.
    pub fn of(alloc: Global, tx: &Tx) -> Result<Names, Memory>
        requires { TxFits tx.now }
        ensures inputs { IfOk result (λ found. found.inputs ≡ names (inputs_of tx.now)) }
        ensures references { IfOk result (λ found.
            found.references ≡ names (references_of tx.now)) }
        ensures outputs { IfOk result (λ found. found.outputs ≡ names (outputs_of tx.now)) }
    {
        let digest = tx_digest(alloc, tx)?;
        let traces = tx.traces.as_slice();
        Ok(Names {
            inputs: input_names(alloc, traces)?,
            references: reference_names(alloc, traces)?,
            outputs: output_names(alloc, &digest, traces)?,
        })
    }
}

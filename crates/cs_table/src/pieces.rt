//! The keys that a session has in a shard.
ghost use Rattle.std.specs.Prelude.{◌≡◌, ◌≤◌, ◌++◌, [], ◌∷◌, length, IfOk, OnOk};
ghost use Rattle.std.specs.List.{flat_map, AllByRecursion};
ghost use Rattle.cs_tx_types.specs.declared.limits.TheConstants.{MOST_TRACES, MOST_TRACE_OBJECTS};
ghost use Rattle.cs_tx_types.specs.Transaction.{TraceFits};
ghost use Rattle.cs_tx_types.specs.Session.{SessionFits};
ghost use Rattle.cs_tx.specs.Digest.{outputs_at, outputs_from};
ghost use Rattle.cs_table.specs.Pieces.{pieces_in, dummy_pieces, used_in, read_in, made_in, PiecesFit};
ghost use Rattle.cs_tx.specs.Dummies.{dummy_object as the_dummy};

use crate::piece::Piece;
use cs_base::{Config, Key, Memory, Sequence, shard_of};
use cs_tx::{Digest, Encoded, Name, Object, Session, Trace, output_name, tx_digest};
use std::alloc::Global;

/// The object that each dummy carries.
pub fn dummy_object(alloc: Global) -> Result<Object, Memory>
    ensures { IfOk result (λ object. object ≡ the_dummy) }
{
    let text = Vec::from_slice(alloc, b"dummy")?;
    Ok(Object {
        contract: [0; 32],
        type_name: Name::from_vec(text),
        values: Sequence::new(alloc),
    })
}

/// Appends the object, where its name is that of a key in the shard.
pub(crate) fn add_piece(
    alloc: Global,
    pieces: &mut Vec<Piece>,
    config: &Config,
    shard: u16,
    name: Digest,
    object: &Object,
) -> Result<(), Memory>
    ensures { OnOk result (pieces.new.items
        ≡ pieces.old.items ++ pieces_in config.now.shards shard ((name, object.now) ∷ [])) }
{
    let key = Key::Object(name);
    if shard_of(config, &key) == shard {
        let object = object.copy(alloc)?;
        pieces.push(Piece { key, object })?;
    }
    Ok(())
}

fn add_pieces(
    alloc: Global,
    pieces: &mut Vec<Piece>,
    config: &Config,
    shard: u16,
    items: &[(Digest, Object)],
) -> Result<(), Memory>
    ensures { OnOk result (pieces.new.items
        ≡ pieces.old.items ++ pieces_in config.now.shards shard items.now) }
{
    for item in items {
        add_piece(alloc, pieces, config, shard, item.0, &item.1)?;
    }
    Ok(())
}

fn add_inputs(
    alloc: Global,
    pieces: &mut Vec<Piece>,
    config: &Config,
    shard: u16,
    traces: &[Trace],
) -> Result<(), Memory>
    ensures { OnOk result (pieces.new.items
        ≡ pieces.old.items
        ++ pieces_in config.now.shards shard
        (flat_map (λ trace. trace.inputs) traces.now)) }
{
    for trace in traces {
        add_pieces(alloc, pieces, config, shard, trace.inputs.as_slice())?;
    }
    Ok(())
}

fn add_references(
    alloc: Global,
    pieces: &mut Vec<Piece>,
    config: &Config,
    shard: u16,
    traces: &[Trace],
) -> Result<(), Memory>
    ensures { OnOk result (pieces.new.items
        ≡ pieces.old.items
        ++ pieces_in config.now.shards shard
        (flat_map (λ trace. trace.references) traces.now)) }
{
    for trace in traces {
        add_pieces(alloc, pieces, config, shard, trace.references.as_slice())?;
    }
    Ok(())
}

fn add_dummies(
    alloc: Global,
    pieces: &mut Vec<Piece>,
    shard: u16,
    dummies: &[(u16, u64)],
) -> Result<(), Memory>
    ensures { OnOk result (pieces.new.items ≡ pieces.old.items ++ dummy_pieces shard dummies.now) }
{
    for dummy in dummies {
        if dummy.0 == shard {
            pieces.push(Piece {
                key: Key::Dummy(dummy.0, dummy.1),
                object: dummy_object(alloc)?,
            })?;
        }
    }
    Ok(())
}

/// Appends the outputs of a trace.
fn add_outputs_at(
    alloc: Global,
    pieces: &mut Vec<Piece>,
    config: &Config,
    shard: u16,
    digest: &Digest,
    trace: u16,
    outputs: &[Object],
) -> Result<(), Memory>
    requires { length outputs.now ≤ MOST_TRACE_OBJECTS }
    ensures { OnOk result (pieces.new.items
        ≡ pieces.old.items
        ++ pieces_in config.now.shards shard (outputs_at digest.now trace 0 outputs.now)) }
{
    for place in 0..outputs.len() {
        let name = output_name(digest, trace, place as u16);
        add_piece(alloc, pieces, config, shard, name, &outputs[place])?;
    }
    Ok(())
}

fn add_outputs(
    alloc: Global,
    pieces: &mut Vec<Piece>,
    config: &Config,
    shard: u16,
    digest: &Digest,
    traces: &[Trace],
) -> Result<(), Memory>
    requires few { length traces.now ≤ MOST_TRACES }
    requires fit { AllByRecursion TraceFits traces.now }
    ensures { OnOk result (pieces.new.items
        ≡ pieces.old.items
        ++ pieces_in config.now.shards shard
        (flat_map (λ outputs. outputs) (outputs_from digest.now 0 traces.now))) }
{
    for number in 0..traces.len() {
        let outputs = traces[number].outputs.as_slice();
        add_outputs_at(alloc, pieces, config, shard, digest, number as u16, outputs)?;
    }
    Ok(())
}

/// What a session uses up in a shard: its inputs there, and its dummy.
pub fn used_pieces(
    alloc: Global,
    config: &Config,
    shard: u16,
    session: &Session,
) -> Result<Vec<Piece>, Memory>
    requires { SessionFits session.now }
    ensures now { IfOk result (λ pieces.
        pieces.items ≡ used_in config.now.shards shard session.now) }
    ensures fit { IfOk result (λ pieces. PiecesFit pieces.items) }
{
    let mut pieces = Vec::new(alloc);
    add_inputs(
        alloc,
        &mut pieces,
        config,
        shard,
        session.tx.traces.as_slice(),
    )?;
    add_dummies(alloc, &mut pieces, shard, session.dummies.as_slice())?;
    Ok(pieces)
}

/// What a session reads in a shard: its references there.
pub fn read_pieces(
    alloc: Global,
    config: &Config,
    shard: u16,
    session: &Session,
) -> Result<Vec<Piece>, Memory>
    requires { SessionFits session.now }
    ensures now { IfOk result (λ pieces.
        pieces.items ≡ read_in config.now.shards shard session.now) }
    ensures fit { IfOk result (λ pieces. PiecesFit pieces.items) }
{
    let mut pieces = Vec::new(alloc);
    add_references(
        alloc,
        &mut pieces,
        config,
        shard,
        session.tx.traces.as_slice(),
    )?;
    Ok(pieces)
}

/// What a session brings into being in a shard: its outputs there.
pub fn made_pieces(
    alloc: Global,
    config: &Config,
    shard: u16,
    session: &Session,
) -> Result<Vec<Piece>, Memory>
    requires { SessionFits session.now }
    ensures now { IfOk result (λ pieces.
        pieces.items ≡ made_in config.now.shards shard session.now) }
    ensures fit { IfOk result (λ pieces. PiecesFit pieces.items) }
{
    let digest = tx_digest(alloc, &session.tx)?;
    let mut pieces = Vec::new(alloc);
    add_outputs(
        alloc,
        &mut pieces,
        config,
        shard,
        &digest,
        session.tx.traces.as_slice(),
    )?;
    Ok(pieces)
}

//! A schedule, printed line by line.
ghost use Rattle.std.specs.Prelude.{◌≡◌, ◌++◌, ◌∷◌, [], OnOk, OnErr, codes};
ghost use Rattle.std.specs.List.{All};
ghost use Rattle.cs_base.specs.Fields.{each};
ghost use Rattle.cs_tx_value.specs.Object.{ObjectFits};
ghost use Rattle.cs_tx_value.specs.Reading.{Begins};
ghost use Rattle.cs_text.specs.Printed.{line_text};
ghost use Rattle.cs_sched.specs.declared.schedule.Event.TheVariants.{Say, Inject};
ghost use Rattle.cs_sched.specs.Printed.{liar_words, contract_words, object_words, event_words, head_lines, liar_lines, contract_lines, genesis_lines, printed_events, schedule_text};

use crate::line_printing::{print_bytes_line, print_line, print_name, print_number};
use crate::{Event, Schedule};
use cs_base::{Memory, NodeId, Sequence, Writer, print_bytes};
use cs_tx_value::{Encoded, Object};
use std::alloc::Global;

/// Appends the text of a schedule: a line for each item in the order of the format, one space
/// between fields, hex in lower case, `-` for no byte, LF at each line's end. Where memory runs
/// out, a part of the text may have been appended.
#[tactic(auto, using(crate::proofs::Texts::later))]
pub fn print(alloc: Global, schedule: &Schedule, out: &mut Writer) -> Result<(), Memory>
    requires { All ObjectFits schedule.now.genesis }
    ensures ok { OnOk result (out.new ≡ out.old ++ schedule_text schedule.now) }
    ensures err { OnErr result (Begins out.new out.old) }
{
    print_head(alloc, schedule, out)?;
    print_liars(alloc, schedule.liars.as_slice(), out)?;
    print_contracts(alloc, schedule.contracts.as_slice(), out)?;
    print_genesis(alloc, schedule.genesis.as_slice(), out)?;
    print_run(out)?;
    print_events(alloc, schedule.events.as_slice(), out)?;
    print_end(out)
}

fn print_run(out: &mut Writer) -> Result<(), Memory>
    ensures ok { OnOk result (out.new ≡ out.old ++ line_text (codes "run" ∷ [])) }
    ensures err { OnErr result (Begins out.new out.old) }
{
    print_line(b"run".as_slice(), &[], out)
}

fn print_end(out: &mut Writer) -> Result<(), Memory>
    ensures ok { OnOk result (out.new ≡ out.old ++ line_text (codes "end" ∷ [])) }
    ensures err { OnErr result (Begins out.new out.old) }
{
    print_line(b"end".as_slice(), &[], out)
}

fn print_head(alloc: Global, schedule: &Schedule, out: &mut Writer) -> Result<(), Memory>
    ensures ok { OnOk result (out.new
        ≡ out.old ++ each line_text (head_lines schedule.now.config schedule.now.master)) }
    ensures err { OnErr result (Begins out.new out.old) }
{
    let config = schedule.config;
    print_number(alloc, b"shards".as_slice(), u64::from(config.shards), out)?;
    print_number(alloc, b"faulty".as_slice(), u64::from(config.f), out)?;
    print_number(alloc, b"dummies".as_slice(), u64::from(config.dummies), out)?;
    print_bytes_line(alloc, b"master".as_slice(), &schedule.master, out)
}

#[tactic(auto, using(crate::proofs::Texts::later))]
fn print_liars(alloc: Global, liars: &[NodeId], out: &mut Writer) -> Result<(), Memory>
    ensures ok { OnOk result (out.new ≡ out.old ++ each line_text (liar_lines liars.now)) }
    ensures err { OnErr result (Begins out.new out.old) }
{
    for liar in liars {
        print_liar(alloc, *liar, out)?;
    }
    Ok(())
}

fn print_liar(alloc: Global, liar: NodeId, out: &mut Writer) -> Result<(), Memory>
    ensures ok { OnOk result (out.new ≡ out.old ++ line_text (liar_words liar)) }
    ensures err { OnErr result (Begins out.new out.old) }
{
    print_name(alloc, b"liar".as_slice(), liar, out)
}

#[tactic(auto, using(crate::proofs::Texts::later))]
fn print_contracts(
    alloc: Global,
    contracts: &[Sequence<u8>],
    out: &mut Writer,
) -> Result<(), Memory>
    ensures ok { OnOk result (out.new
        ≡ out.old ++ each line_text (contract_lines contracts.now)) }
    ensures err { OnErr result (Begins out.new out.old) }
{
    for contract in contracts {
        print_contract(alloc, contract, out)?;
    }
    Ok(())
}

fn print_contract(alloc: Global, contract: &Sequence<u8>, out: &mut Writer) -> Result<(), Memory>
    ensures ok { OnOk result (out.new ≡ out.old ++ line_text (contract_words contract.now)) }
    ensures err { OnErr result (Begins out.new out.old) }
{
    print_bytes_line(alloc, b"contract".as_slice(), contract.as_slice(), out)
}

#[tactic(auto, using(crate::proofs::Texts::later))]
fn print_genesis(alloc: Global, objects: &[Object], out: &mut Writer) -> Result<(), Memory>
    requires { All ObjectFits objects.now }
    ensures ok { OnOk result (out.new ≡ out.old ++ each line_text (genesis_lines objects.now)) }
    ensures err { OnErr result (Begins out.new out.old) }
{
    for object in objects {
        print_object(alloc, object, out)?;
    }
    Ok(())
}

fn print_object(alloc: Global, object: &Object, out: &mut Writer) -> Result<(), Memory>
    requires { ObjectFits object.now }
    ensures ok { OnOk result (out.new ≡ out.old ++ line_text (object_words object.now)) }
    ensures err { OnErr result (Begins out.new out.old) }
{
    let bytes = object.to_bytes(alloc)?;
    print_bytes_line(alloc, b"genesis".as_slice(), bytes.as_slice(), out)
}

#[tactic(auto, using(crate::proofs::Texts::later))]
fn print_events(alloc: Global, events: &[(u64, Event)], out: &mut Writer) -> Result<(), Memory>
    ensures ok { OnOk result (out.new ≡ out.old ++ each line_text (printed_events events.now)) }
    ensures err { OnErr result (Begins out.new out.old) }
{
    for (_, event) in events {
        print_event(alloc, event, out)?;
    }
    Ok(())
}

fn print_event(alloc: Global, event: &Event, out: &mut Writer) -> Result<(), Memory>
    ensures ok { OnOk result (out.new ≡ out.old ++ line_text (event_words event.now)) }
    ensures err { OnErr result (Begins out.new out.old) }
{
    match event {
        Event::Say {
            from,
            to,
            kind,
            body,
        } => print_say(alloc, *from, *to, *kind, body.as_slice(), out),
        Event::Inject { to, bytes } => print_inject(alloc, *to, bytes.as_slice(), out),
        Event::Deliver { number } => print_number(alloc, b"deliver".as_slice(), *number, out),
        Event::Tick { node } => print_name(alloc, b"tick".as_slice(), *node, out),
        Event::Drain { times } => print_number(alloc, b"drain".as_slice(), *times, out),
    }
}

#[tactic(auto, using(crate::proofs::Texts::unchanged))]
fn print_say(
    alloc: Global,
    from: NodeId,
    to: NodeId,
    kind: u8,
    body: &[u8],
    out: &mut Writer,
) -> Result<(), Memory>
    ensures ok { OnOk result (out.new
        ≡ out.old ++ line_text (event_words (Say from to kind body.now))) }
    ensures err { OnErr result (Begins out.new out.old) }
{
    let from = format!(in alloc; "{from}")?;
    let to = format!(in alloc; "{to}")?;
    let kind = format!(in alloc; "{kind}")?;
    let body = print_bytes(alloc, body)?;
    let fields = [
        from.as_bytes(),
        to.as_bytes(),
        kind.as_bytes(),
        body.as_bytes(),
    ];
    print_line(b"say".as_slice(), &fields, out)
}

#[tactic(auto, using(crate::proofs::Texts::unchanged))]
fn print_inject(alloc: Global, to: NodeId, bytes: &[u8], out: &mut Writer) -> Result<(), Memory>
    ensures ok { OnOk result (out.new ≡ out.old ++ line_text (event_words (Inject to bytes.now))) }
    ensures err { OnErr result (Begins out.new out.old) }
{
    let to = format!(in alloc; "{to}")?;
    let bytes = print_bytes(alloc, bytes)?;
    let fields = [to.as_bytes(), bytes.as_bytes()];
    print_line(b"inject".as_slice(), &fields, out)
}

//! Serving a node.
ghost use Rattle.std.specs.Prelude.{◌≡◌, ◌≢◌, ◌⊎◌, ◌+◌, ◌≤◌, length, IsSome, IfErr, IsErrOf, OnOk, OnErr};
ghost use Rattle.cs_base.specs.Outside.{HasCause};
ghost use Rattle.cs_base.specs.declared.limits.TheConstants.{MOST_DATAGRAM};
ghost use Rattle.cs_io.specs.Told.{Stays};
ghost use Rattle.cs_io.specs.Outside.{beside};
ghost use Rattle.cs_node_state.specs.Setup.{Setup};
ghost use Rattle.cs_node_rules.specs.Net.{Net};
ghost use Rattle.cs_node_rules.specs.Site.{View};
ghost use Rattle.cs_node_rules.specs.Deployment.{site_of};
ghost use Rattle.cs_node.specs.Notes.{NotesFit};
ghost use Rattle.cs_node.specs.Cores.{CoreStandsFor};
ghost use Rattle.cs_node.specs.Speaking.{input_of};
ghost use Rattle.cs_serve.specs.Offering.{offers_in};
ghost use Rattle.cs_serve.specs.Giving.{Gives, GivesFront};
ghost use Rattle.cs_serve.specs.Telling.{served_notes_text};
ghost use Rattle.cs_serve.specs.Serving.{NodeAnswers, Serves, TakesTurn, served, served_turn};

use crate::ending::End;
use crate::offering::offer;
use crate::receiving::receive;
use crate::telling::tell;
use cs_base::{MOST_DATAGRAM, Memory, NodeId, Sink, WriteError};
use cs_io::{Arrived, Link, Until};
use cs_node::{Carried, Core, Input, Made};
use cs_tx::Judge;
use std::alloc::Global;

/// Gives a node the inputs of the link for so long, offers what it sends, and prints the lines of
/// what it executes. It ends before if the link has nothing left or fails too often in a row, if a
/// line can't be written, or for want of memory; at that alone the node may be gone.
pub fn serve<O: Carried, J: Judge + Drop, L: Link, K: Sink>(
    alloc: Global,
    core: Core<O, J>,
    link: &mut L,
    out: &mut K,
    until: Until,
) -> (End, Option<Core<O, J>>)
    ensures serves { (setup : Setup) (net : Net) (v : View O.Message) →
        let site = site_of setup net O.rules O.carrier in
        let stands = CoreStandsFor O.stands J.is_approved site in
        stands core v → Serves stands site v until
        (beside (L.told link.old) (K.written out.old))
        (beside (L.told link.new) (K.written out.new)) result }
    ensures kept { result.0 ≢ End.Memory → IsSome result.1 }
    ensures bound { Stays (L.told link.old).bound (L.told link.new).bound }
    ensures placed { Stays (L.told link.old).placed (L.told link.new).placed }
    ensures link { HasCause (L.faults link.old) (L.faults link.new) (result.0 ≡ End.LinkFault) }
    ensures sink { HasCause (K.faults out.old) (K.faults out.new) (result.0 ≡ End.WriteFault) }
{
    let Ok(mut room) = vec![in alloc; 0u8; MOST_DATAGRAM + 1] else {
        return (End::Memory, Some(core));
    };
    let buf = room.as_mut_slice();
    let mut core = core;
    let mut turns = 0;
    let mut ticks = 0;
    while !until.is_over(turns, ticks) {
        match take_turn(alloc, core, link, out, buf) {
            Ok((next, ticked)) => {
                core = next;
                turns += 1;
                ticks += u64::from(ticked);
            }
            Err(ended) => return ended,
        }
    }
    (End::Done, Some(core))
}

// Takes an input and answers it: the node after it, with whether the input was a tick, or how the
// serving ends.
fn take_turn<O: Carried, J: Judge + Drop, L: Link, K: Sink>(
    alloc: Global,
    core: Core<O, J>,
    link: &mut L,
    out: &mut K,
    buf: &mut [u8],
) -> Result<(Core<O, J>, bool), (End, Option<Core<O, J>>)>
    requires { length buf.old ≡ MOST_DATAGRAM + 1 }
    ensures takes { (setup : Setup) (net : Net) (v : View O.Message) →
        let site = site_of setup net O.rules O.carrier in
        let stands = CoreStandsFor O.stands J.is_approved site in
        stands core v → TakesTurn stands site v
        (beside (L.told link.old) (K.written out.old))
        (beside (L.told link.new) (K.written out.new)) result }
    ensures ended { IfErr result (λ ended. ended.0 ≢ End.Done) }
    ensures kept { IfErr result (λ ended. ended.0 ≢ End.Memory → IsSome ended.1) }
    ensures bound { Stays (L.told link.old).bound (L.told link.new).bound }
    ensures placed { Stays (L.told link.old).placed (L.told link.new).placed }
    ensures link { HasCause (L.faults link.old) (L.faults link.new)
        ((served_turn result).0 ≡ End.LinkFault) }
    ensures sink { HasCause (K.faults out.old) (K.faults out.new)
        ((served_turn result).0 ≡ End.WriteFault) }
{
    match receive(link, buf) {
        Arrived::Datagram(count) => {
            let (bytes, _) = buf.split_at(count);
            let core = answer(alloc, core, Input::Datagram(bytes), link, out)?;
            Ok((core, false))
        }
        Arrived::Tick => {
            let core = answer(alloc, core, Input::Tick, link, out)?;
            Ok((core, true))
        }
        Arrived::End => Err((End::Ended, Some(core))),
        Arrived::Failed => Err((End::LinkFault, Some(core))),
    }
}

/// Gives the node an input, offers what it sends, and prints the lines of what it executes.
pub fn answer<O: Carried, J: Judge + Drop, L: Link, K: Sink>(
    alloc: Global,
    core: Core<O, J>,
    input: Input<'_>,
    link: &mut L,
    out: &mut K,
) -> Result<Core<O, J>, (End, Option<Core<O, J>>)>
    ensures answers { (setup : Setup) (net : Net) (v : View O.Message) →
        let site = site_of setup net O.rules O.carrier in
        let stands = CoreStandsFor O.stands J.is_approved site in
        stands core v → NodeAnswers stands site v (input_of input.entry)
        (beside (L.told link.old) (K.written out.old))
        (beside (L.told link.new) (K.written out.new))
        (served result) }
    ensures ended { IfErr result (λ ended.
        (ended.0 ≡ End.WriteFault) ⊎ (ended.0 ≡ End.Memory)) }
    ensures kept { IfErr result (λ ended. ended.0 ≢ End.Memory → IsSome ended.1) }
    ensures left { Stays (L.told link.old).left (L.told link.new).left }
    ensures bound { Stays (L.told link.old).bound (L.told link.new).bound }
    ensures placed { Stays (L.told link.old).placed (L.told link.new).placed }
    ensures missed { (L.told link.new).missed ≡ (L.told link.old).missed }
    ensures link { L.faults link.old ≤ L.faults link.new }
    ensures sink { HasCause (K.faults out.old) (K.faults out.new)
        ((served result).0 ≡ End.WriteFault) }
{
    let me = core.me();
    let Ok((core, made)) = core.step(alloc, input) else {
        return Err((End::Memory, None));
    };
    match give_out(alloc, me, &made, link, out) {
        Ok(()) => Ok(core),
        Err(WriteError::Failed) => Err((End::WriteFault, Some(core))),
        Err(WriteError::Memory) => Err((End::Memory, Some(core))),
    }
}

// Offers what a node sends, and prints its lines.
fn give_out<L: Link, K: Sink>(
    alloc: Global,
    me: NodeId,
    made: &Made,
    link: &mut L,
    out: &mut K,
) -> Result<(), WriteError>
    requires { NotesFit made.now.notes }
    ensures all { OnOk result (Gives
        (offers_in made.now.outs) (served_notes_text me made.now.notes)
        (beside (L.told link.old) (K.written out.old))
        (beside (L.told link.new) (K.written out.new))) }
    ensures front { OnErr result (GivesFront
        (offers_in made.now.outs) (served_notes_text me made.now.notes)
        (beside (L.told link.old) (K.written out.old))
        (beside (L.told link.new) (K.written out.new))) }
    ensures left { Stays (L.told link.old).left (L.told link.new).left }
    ensures bound { Stays (L.told link.old).bound (L.told link.new).bound }
    ensures placed { Stays (L.told link.old).placed (L.told link.new).placed }
    ensures missed { (L.told link.new).missed ≡ (L.told link.old).missed }
    ensures link { L.faults link.old ≤ L.faults link.new }
    ensures sink { HasCause (K.faults out.old) (K.faults out.new)
        (IsErrOf result WriteError.Failed) }
{
    let Ok(()) = offer(link, made.outs.as_slice()) else {
        return Err(WriteError::Memory);
    };
    tell(alloc, out, me, made.notes.as_slice())
}

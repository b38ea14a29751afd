//! Running a client.
ghost use Rattle.std.specs.Prelude.{◌≡◌, ◌+◌, ◌≤◌, List, [], length, IsErrOf};
ghost use Rattle.cs_base.specs.Outside.{HasCause};
ghost use Rattle.cs_base.specs.declared.limits.TheConstants.{MOST_DATAGRAM};
ghost use Rattle.cs_io.specs.Told.{Stays};
ghost use Rattle.cs_client.specs.declared.errand.Errand.{Errand};
ghost use Rattle.cs_client.specs.Inputs.{ClientInput, client_input};
ghost use Rattle.cs_client.specs.Knowing.{knows};
ghost use Rattle.cs_client.specs.Standing.{ClientStandsFor};
ghost use Rattle.cs_serve.specs.Offering.{offers_in};
ghost use Rattle.cs_serve.specs.Attending.{Attends, ClientTakesTurn, GoesBy, Says};

use crate::client_ending::Ending;
use crate::{offer, receive};
use cs_base::{MOST_DATAGRAM, Sequence};
use cs_client::{ClientCore, ClientError, Input, Known, Out};
use cs_io::{Arrived, Link, Until};
use std::alloc::Global;

/// Gives a client the inputs of the link for so long, and offers what it says. It ends at the first
/// input after which the client knows what has become of its session, or at which its method is
/// refused; else where the link has nothing left or fails too often in a row, or for want of memory.
pub fn attend<L: Link>(alloc: Global, client: ClientCore, link: &mut L, until: Until) -> Ending
    ensures attends { (e : Errand) → ClientStandsFor e [] client → knows e [] ≡ Known.Open
        → Attends e until (L.told link.old) (L.told link.new) result }
    ensures bound { Stays (L.told link.old).bound (L.told link.new).bound }
    ensures placed { Stays (L.told link.old).placed (L.told link.new).placed }
    ensures cause { HasCause (L.faults link.old) (L.faults link.new) (result ≡ Ending.LinkFault) }
{
    let Ok(mut room) = vec![in alloc; 0u8; MOST_DATAGRAM + 1] else {
        return Ending::Memory;
    };
    let buf = room.as_mut_slice();
    let mut client = client;
    let mut turns = 0;
    let mut ticks = 0;
    while !until.is_over(turns, ticks) {
        match take_turn(alloc, client, link, buf) {
            Ok((next, ticked)) => {
                client = next;
                turns += 1;
                ticks += u64::from(ticked);
            }
            Err(ending) => return ending,
        }
    }
    Ending::Knows(Known::Open)
}

// Takes an input and answers it: the client after it, with whether the input was a tick, or how its
// run ends.
fn take_turn<L: Link>(
    alloc: Global,
    client: ClientCore,
    link: &mut L,
    buf: &mut [u8],
) -> Result<(ClientCore, bool), Ending>
    requires { length buf.old ≡ MOST_DATAGRAM + 1 }
    ensures goes { (e : Errand) (past : List ClientInput) → ClientStandsFor e past client → ClientTakesTurn e past
        (L.told link.old) (L.told link.new) result }
    ensures bound { Stays (L.told link.old).bound (L.told link.new).bound }
    ensures placed { Stays (L.told link.old).placed (L.told link.new).placed }
    ensures cause { HasCause (L.faults link.old) (L.faults link.new)
        (IsErrOf result Ending.LinkFault) }
{
    match receive(link, buf) {
        Arrived::Datagram(count) => {
            let (bytes, _) = buf.split_at(count);
            let client = answer(alloc, client, Input::Datagram(bytes), link)?;
            Ok((client, false))
        }
        Arrived::Tick => {
            let client = answer(alloc, client, Input::Tick, link)?;
            Ok((client, true))
        }
        Arrived::End => Err(Ending::Knows(Known::Open)),
        Arrived::Failed => Err(Ending::LinkFault),
    }
}

// Gives the client an input, and offers what it says of it.
fn answer<L: Link>(
    alloc: Global,
    client: ClientCore,
    input: Input<'_>,
    link: &mut L,
) -> Result<ClientCore, Ending>
    ensures goes { (e : Errand) (past : List ClientInput) → ClientStandsFor e past client →
        GoesBy e past (client_input input.entry) (L.told link.old).offered (L.told link.new).offered result }
    ensures only { IsErrOf result Ending.LinkFault → ⊥ }
    ensures left { Stays (L.told link.old).left (L.told link.new).left }
    ensures bound { Stays (L.told link.old).bound (L.told link.new).bound }
    ensures placed { Stays (L.told link.old).placed (L.told link.new).placed }
    ensures missed { (L.told link.new).missed ≡ (L.told link.old).missed }
    ensures faults { L.faults link.old ≤ L.faults link.new }
{
    match client.step(alloc, input) {
        Ok((client, outs)) => say(client, outs, link),
        Err(ClientError::Refused(cause)) => Err(Ending::Refused(cause)),
        Err(ClientError::Memory) => Err(Ending::Memory),
    }
}

// Offers what the client says, and asks it what it knows.
fn say<L: Link>(client: ClientCore, outs: Sequence<Out>, link: &mut L) -> Result<ClientCore, Ending>
    ensures says { (e : Errand) (inputs : List ClientInput) → ClientStandsFor e inputs client →
        Says e inputs (offers_in outs) (L.told link.old).offered (L.told link.new).offered result }
    ensures only { IsErrOf result Ending.LinkFault → ⊥ }
    ensures left { Stays (L.told link.old).left (L.told link.new).left }
    ensures bound { Stays (L.told link.old).bound (L.told link.new).bound }
    ensures placed { Stays (L.told link.old).placed (L.told link.new).placed }
    ensures missed { (L.told link.new).missed ≡ (L.told link.old).missed }
    ensures faults { L.faults link.old ≤ L.faults link.new }
{
    let Ok(()) = offer(link, outs.as_slice()) else {
        return Err(Ending::Memory);
    };
    match client.known() {
        Known::Open => Ok(client),
        known => Err(Ending::Knows(known)),
    }
}

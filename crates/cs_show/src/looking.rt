//! Looking a key up over a link.
ghost use Rattle.std.specs.Prelude.{◌≡◌, ◌+◌, List, ◌∷◌, [], None, length, IsErrOf};
ghost use Rattle.cs_base.specs.Outside.{HasCause};
ghost use Rattle.cs_base.specs.declared.limits.TheConstants.{MOST_DATAGRAM};
ghost use Rattle.cs_io.specs.Told.{Stays};
ghost use Rattle.cs_io.specs.declared.link.MemInput.TheVariants as came;
ghost use Rattle.cs_client.specs.Inputs.{ClientInput};
ghost use Rattle.cs_show.specs.declared.lookup.Lookup.{Lookup};
ghost use Rattle.cs_show.specs.Words.{seen};
ghost use Rattle.cs_show.specs.Standing.{LookerStandsFor};
ghost use Rattle.cs_show.specs.Looking.{Looks, Hears, IsTold, LookTakesTurn};

use crate::ending::Ending;
use crate::looker::Looker;
use cs_base::MOST_DATAGRAM;
use cs_io::{Arrived, Link, Text, Until};
use cs_serve::{offer, receive};
use std::alloc::Global;

/// Gives a client that looks a key up the inputs of the link for so long, and offers what it asks.
/// It ends at the first input after which f+1 nodes have told one line; else where the link has
/// nothing left or fails too often in a row, or for want of memory.
pub fn look<L: Link>(alloc: Global, looker: Looker, link: &mut L, until: Until) -> Ending
    ensures looks { (lookup : Lookup) → LookerStandsFor lookup [] looker →
        Looks lookup until (L.told link.old) (L.told link.new) result }
    ensures bound { Stays (L.told link.old).bound (L.told link.new).bound }
    ensures placed { Stays (L.told link.old).placed (L.told link.new).placed }
    ensures cause { HasCause (L.faults link.old) (L.faults link.new) (result ≡ Ending.LinkFault) }
{
    let Ok(mut room) = vec![in alloc; 0u8; MOST_DATAGRAM + 1] else {
        return Ending::Memory;
    };
    let buf = room.as_mut_slice();
    let mut looker = looker;
    let mut turns = 0;
    let mut ticks = 0;
    while !until.is_over(turns, ticks) {
        match take_turn(alloc, looker, link, buf) {
            Ok((next, ticked)) => {
                looker = next;
                turns += 1;
                ticks += u64::from(ticked);
            }
            Err(ending) => return ending,
        }
    }
    Ending::Open
}

// Takes an input: the client after it, with whether the input was a tick, or how its run ends.
fn take_turn<L: Link>(
    alloc: Global,
    looker: Looker,
    link: &mut L,
    buf: &mut [u8],
) -> Result<(Looker, bool), Ending>
    requires { length buf.old ≡ MOST_DATAGRAM + 1 }
    ensures goes { (lookup : Lookup) (past : List ClientInput) → seen lookup past ≡ None →
        LookerStandsFor lookup past looker →
        LookTakesTurn lookup past (L.told link.old) (L.told link.new) result }
    ensures bound { Stays (L.told link.old).bound (L.told link.new).bound }
    ensures placed { Stays (L.told link.old).placed (L.told link.new).placed }
    ensures cause { HasCause (L.faults link.old) (L.faults link.new)
        (IsErrOf result Ending.LinkFault) }
{
    match receive(link, buf) {
        Arrived::Datagram(count) => {
            let (bytes, _) = buf.split_at(count);
            let looker = hear(alloc, looker, bytes)?;
            Ok((looker, false))
        }
        Arrived::Tick => match offer(link, looker.asks.as_slice()) {
            Ok(()) => Ok((looker, true)),
            Err(_) => Err(Ending::Memory),
        },
        Arrived::End => Err(Ending::Open),
        Arrived::Failed => Err(Ending::LinkFault),
    }
}

// Gives the client a datagram, and asks it what is seen.
fn hear(alloc: Global, looker: Looker, bytes: &[u8]) -> Result<Looker, Ending>
    ensures hears { (lookup : Lookup) (past : List ClientInput) → LookerStandsFor lookup past looker →
        Hears lookup (came.Datagram bytes.now ∷ past) result }
    ensures only { IsErrOf result Ending.LinkFault → ⊥ }
{
    let Ok(looker) = looker.hear(alloc, bytes) else {
        return Err(Ending::Memory);
    };
    match looker.seen() {
        Some(line) => Err(told(alloc, line)),
        None => Ok(looker),
    }
}

// The ending that tells this line.
fn told(alloc: Global, line: &Text) -> Ending
    ensures told { IsTold line.now result }
    ensures only { result ≡ Ending.LinkFault → ⊥ }
{
    match String::from_str(alloc, line.as_str()) {
        Ok(text) => Ending::Tells(Text::from_string(text)),
        Err(_) => Ending::Memory,
    }
}

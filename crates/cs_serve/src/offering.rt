//! Offering to a link what a node sends.
ghost use Rattle.std.specs.Prelude.{◌≡◌, ◌≤◌, OnOk, OnErr};
ghost use Rattle.cs_io.specs.Told.{Stays};
ghost use Rattle.cs_serve.specs.Offering.{AddsOffers, AddsFront, offers_in};

use cs_base::Memory;
use cs_io::{Link, Sent};
use cs_wire::Out;

/// Offers these datagrams, one after the other. One whose sending fails is lost.
pub fn offer<L: Link>(link: &mut L, outs: &[Out]) -> Result<(), Memory>
    ensures all { OnOk result
        (AddsOffers (offers_in outs.now) (L.told link.old).offered (L.told link.new).offered) }
    ensures front { OnErr result
        (AddsFront (offers_in outs.now) (L.told link.old).offered (L.told link.new).offered) }
    ensures left { Stays (L.told link.old).left (L.told link.new).left }
    ensures bound { Stays (L.told link.old).bound (L.told link.new).bound }
    ensures placed { Stays (L.told link.old).placed (L.told link.new).placed }
    ensures missed { (L.told link.new).missed ≡ (L.told link.old).missed }
    ensures faults { L.faults link.old ≤ L.faults link.new }
{
    for out in outs {
        match link.send(out.to, out.bytes.as_slice()) {
            Sent::Done => {}
            Sent::Failed => {}
            Sent::Memory => return Err(Memory),
        }
    }
    Ok(())
}

//! Receiving from a link that may fail.
ghost use Rattle.std.specs.Prelude.{◌≡◌, ◌+◌, length};
ghost use Rattle.cs_base.specs.Outside.{HasCause};
ghost use Rattle.cs_base.specs.declared.limits.TheConstants.{MOST_DATAGRAM};
ghost use Rattle.cs_io.specs.Told.{Stays};
ghost use Rattle.cs_io.specs.Link.{Receives};
ghost use Rattle.cs_serve.specs.Receiving.{missed_since};

use cs_io::{Arrived, Link};

/// So many receives that fail in a row are taken for a link that stays out of order.
pub const MOST_MISSED: u64 = 64;

/// The first input that is left. The link is asked again where it fails, until so many receives in
/// a row have failed.
pub fn receive<L: Link>(link: &mut L, buf: &mut [u8]) -> Arrived
    requires { length buf.old ≡ MOST_DATAGRAM + 1 }
    ensures input { Receives (L.told link.old).left (L.told link.new).left buf.new result }
    ensures bound { Stays (L.told link.old).bound (L.told link.new).bound }
    ensures placed { Stays (L.told link.old).placed (L.told link.new).placed }
    ensures offered { Stays (L.told link.old).offered (L.told link.new).offered }
    ensures missed { (L.told link.new).missed ≡ missed_since (L.told link.old).missed result }
    ensures cause { HasCause (L.faults link.old) (L.faults link.new) (result ≡ Arrived.Failed) }
{
    let mut missed = 0;
    while missed < MOST_MISSED {
        match link.receive(buf) {
            Arrived::Failed => missed += 1,
            arrived => return arrived,
        }
    }
    Arrived::Failed
}

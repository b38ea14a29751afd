//! The link of a node or a client, told where all are and bound before its first turn.
ghost use Rattle.std.specs.Prelude.{◌≡◌, ◌≤◌, Err, OnOk, OnErr};
ghost use Rattle.cs_base.specs.Outside.{HasCause};
ghost use Rattle.cs_io.specs.Outside.{Faulty, beside};
ghost use Rattle.cs_deploy.specs.Binding.{BindsOrTells, IsFreed, IsToldHosts, IsUntouched, LinkIsQuiet};

use crate::tell;
use cs_base::{Memory, NodeId, Sink};
use cs_config::Hosts;
use cs_io::{Bound, Link, Placed};

// Tells the link where all are, where a hosts file says so.
fn place<L: Link>(link: &mut L, hosts: &Option<Hosts>) -> Result<(), Memory>
    ensures placed { OnOk result (IsToldHosts hosts.now (L.told link.old) (L.told link.new)) }
    ensures freed { OnOk result (IsFreed hosts.now (L.told link.old) (L.told link.new)) }
    ensures quiet { LinkIsQuiet (L.told link.old) (L.told link.new) }
    ensures untouched { OnErr result (IsUntouched (L.told link.old) (L.told link.new)) }
    ensures faults { L.faults link.new ≡ L.faults link.old }
{
    match hosts {
        None => Ok(()),
        Some(hosts) => match link.place(hosts.addresses.as_slice(), hosts.tick) {
            Placed::Done => Ok(()),
            Placed::Memory => Err(Memory),
        },
    }
}

/// Tells the link where all are, and binds it; or tells that it can't be bound, and answers the
/// status that a program ends with.
pub fn bind_or_tell<L: Link, K: Sink>(
    link: &mut L,
    hosts: &Option<Hosts>,
    me: NodeId,
    base_port: u16,
    out: &mut K,
) -> Result<(), u8>
    ensures binds { BindsOrTells me base_port hosts.now (Faulty L.faults link.old link.new)
        (beside (L.told link.old) (K.written out.old))
        (beside (L.told link.new) (K.written out.new)) result }
    ensures link { L.faults link.old ≤ L.faults link.new }
    ensures write_fault { HasCause (K.faults out.old) (K.faults out.new) (result ≡ Err 6) }
{
    let Ok(()) = place(link, hosts) else {
        return Err(8);
    };
    match link.bind(me, base_port) {
        Bound::Done => Ok(()),
        Bound::Failed => Err(tell(out, b"link fault\n", 7)),
    }
}

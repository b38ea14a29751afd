//! The command `node`.
ghost use Rattle.std.specs.Prelude.{◌≡◌, ◌≢◌, ◌⊎◌, ◌≤◌, option_copied};
ghost use Rattle.cs_base.specs.Outside.{HasCause};
ghost use Rattle.cs_io.specs.Told.{Stays};
ghost use Rattle.cs_io.specs.Outside.{Faultless, Faulty, beside};
ghost use Rattle.cs_deploy.specs.Hosts.{NodeFilesCome};
ghost use Rattle.cs_deploy.specs.declared.keys.Role.TheVariants.{Node};
ghost use Rattle.cs_deploy.specs.Setups.{IsSoundSetup};
ghost use Rattle.cs_deploy.specs.Untaken.{IsDecided};
ghost use Rattle.cs_deploy.specs.Node.{NodeGoes, NodeRuns, TellsEnd};

use crate::binding::bind_or_tell;
use crate::hosts::take_node_files;
use crate::starting::start_node;
use crate::{Setup, refuse, tell};
use cs_base::Sink;
use cs_config::Hosts;
use cs_io::{Link, Store, Until};
use cs_serve::{End, serve};
use std::alloc::Global;

/// Runs the node of a site file and a key file for so long, where a hosts file says if one is named,
/// and answers the status that a program ends with: 0 where it was run for so long or the link has
/// ended, 12 where a file isn't taken, 7 where the link fails, 6 where the sink fails, 8 for want of
/// memory.
pub fn run_node<E: Store, L: Link, K: Sink>(
    alloc: Global,
    site_name: &str,
    keys_name: &str,
    hosts_name: Option<&str>,
    until: Until,
    store: &mut E,
    link: &mut L,
    out: &mut K,
) -> u8
    ensures runs { NodeRuns site_name.now keys_name.now (option_copied hosts_name.entry) until
        (Faulty E.faults store.old store.new) (Faulty L.faults link.old link.new)
        (E.files store.old) (beside (L.told link.old) (K.written out.old))
        (beside (L.told link.new) (K.written out.new)) result }
    ensures kept { Stays (E.files store.old) (E.files store.new) }
    // Where no fault came about, the files alone decide.
    ensures whole { Faultless E.faults store.old store.new → Faultless L.faults link.old link.new
        → Faultless K.faults out.old out.new
        → IsDecided (NodeFilesCome site_name.now keys_name.now (option_copied hosts_name.entry))
        (λ status. status ≡ 0) (E.files store.old) result }
    ensures only { (result ≢ 2) × (result ≢ 5) }
    ensures write_fault { HasCause (K.faults out.old) (K.faults out.new) (result ≡ 6) }
{
    match take_node_files(alloc, store, site_name, keys_name, hosts_name) {
        Ok((setup, hosts)) => run_setup(alloc, setup, hosts, until, link, out),
        Err(why) => refuse(alloc, why, out),
    }
}

// Runs the node of a setup, with a link that is told where all are.
fn run_setup<L: Link, K: Sink>(
    alloc: Global,
    setup: Setup,
    hosts: Option<Hosts>,
    until: Until,
    link: &mut L,
    out: &mut K,
) -> u8
    requires { IsSoundSetup Node setup }
    ensures goes { NodeGoes setup hosts until (Faulty L.faults link.old link.new)
        (beside (L.told link.old) (K.written out.old))
        (beside (L.told link.new) (K.written out.new)) result }
    ensures write_fault { HasCause (K.faults out.old) (K.faults out.new) (result ≡ 6) }
{
    let me = setup.keys.me();
    let base_port = setup.site.base_port;
    let Ok(core) = start_node(alloc, setup) else {
        return 8;
    };
    match bind_or_tell(link, &hosts, me, base_port, out) {
        Ok(()) => {
            let (end, _core) = serve(alloc, core, link, out, until);
            tell_end(end, out)
        }
        Err(status) => status,
    }
}

/// Tells how the serving of a node has ended.
pub fn tell_end<K: Sink>(end: End, out: &mut K) -> u8
    ensures tells { TellsEnd end (K.written out.old) (K.written out.new) result }
    ensures faults { K.faults out.old ≤ K.faults out.new }
    ensures cause { result ≡ 6 → (end ≡ End.WriteFault) ⊎ Faulty K.faults out.old out.new }
{
    match end {
        End::Done | End::Ended => 0,
        End::LinkFault => tell(out, b"link fault\n", 7),
        End::WriteFault => 6,
        End::Memory => 8,
    }
}

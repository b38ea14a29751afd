//! The command `cluster`.
ghost use Rattle.std.specs.Prelude.{◌≡◌, ◌≢◌, ◌≤◌};
ghost use Rattle.cs_base.specs.Outside.{HasCause};
ghost use Rattle.cs_io.specs.Outside.{Faultless, Faulty, beside};
ghost use Rattle.cs_deploy.specs.Taking.{FilesCome};
ghost use Rattle.cs_deploy.specs.Files.{cluster_taken};
ghost use Rattle.cs_deploy.specs.Untaken.{IsDecided};
ghost use Rattle.cs_deploy.specs.Cluster.{ClusterRuns, ClusterGoes, PlanRuns};

use crate::take_cluster;
use crate::telling::{refuse, tell, tell_unsaved};
use cs_base::Sink;
use cs_config::{Plan, Site, save_keys};
use cs_io::{Spawner, Store};
use cs_spawn::{ClusterError, cluster};
use std::alloc::Global;

/// Saves the key files of the site of this plan file, starts all nodes, runs the calls one after the
/// other, waits for the nodes, and answers the status that a program ends with: 0 where all is done,
/// 12 where a file isn't taken or the store fails, 11 where the spawner fails, 6 where the sink
/// fails, 8 for want of memory. At 11, 6 and 8 each child is told to end that was started and not
/// waited for.
pub fn run_cluster<E: Store, P: Spawner, K: Sink>(
    alloc: Global,
    name: &str,
    store: &mut E,
    spawner: &mut P,
    out: &mut K,
) -> u8
    ensures runs { ClusterRuns name.now
        (Faulty E.faults store.old store.new) (Faulty P.faults spawner.old spawner.new)
        (E.files store.old) (E.files store.new)
        (beside (P.told spawner.old) (K.written out.old))
        (beside (P.told spawner.new) (K.written out.new)) result }
    // Where no fault came about, the plan and the site file alone decide.
    ensures whole { Faultless E.faults store.old store.new → Faultless P.faults spawner.old spawner.new
        → Faultless K.faults out.old out.new
        → IsDecided (FilesCome (cluster_taken name.now)) (λ status. status ≡ 0)
        (E.files store.old) result }
    ensures only { (result ≢ 2) × (result ≢ 5) }
    ensures write_fault { HasCause (K.faults out.old) (K.faults out.new) (result ≡ 6) }
{
    match take_cluster(alloc, store, name) {
        Ok((plan, site)) => run_taken(alloc, &plan, &site, store, spawner, out),
        Err(why) => refuse(alloc, why, out),
    }
}

// Saves the key files of a plan's site, and runs the plan.
fn run_taken<E: Store, P: Spawner, K: Sink>(
    alloc: Global,
    plan: &Plan,
    site: &Site,
    store: &mut E,
    spawner: &mut P,
    out: &mut K,
) -> u8
    ensures goes { ClusterGoes plan.now site.now
        (Faulty E.faults store.old store.new) (Faulty P.faults spawner.old spawner.new)
        (E.files store.old) (E.files store.new)
        (beside (P.told spawner.old) (K.written out.old))
        (beside (P.told spawner.new) (K.written out.new)) result }
    ensures store { E.faults store.old ≤ E.faults store.new }
    ensures write_fault { HasCause (K.faults out.old) (K.faults out.new) (result ≡ 6) }
{
    match save_keys(alloc, store, site, &plan.master) {
        Ok(()) => run_plan(alloc, plan, site, spawner, out),
        Err(error) => tell_unsaved(alloc, error, out),
    }
}

// Runs a plan whose key files are saved.
fn run_plan<P: Spawner, K: Sink>(
    alloc: Global,
    plan: &Plan,
    site: &Site,
    spawner: &mut P,
    out: &mut K,
) -> u8
    ensures ends { PlanRuns plan.now site.now (Faulty P.faults spawner.old spawner.new)
        (beside (P.told spawner.old) (K.written out.old))
        (beside (P.told spawner.new) (K.written out.new)) result }
    ensures write_fault { HasCause (K.faults out.old) (K.faults out.new) (result ≡ 6) }
{
    match cluster(alloc, spawner, plan, site, out) {
        Ok(()) => 0,
        Err(ClusterError::SpawnFault) => tell(out, b"spawn fault\n", 11),
        Err(ClusterError::WriteFault) => 6,
        Err(ClusterError::Memory) => 8,
    }
}

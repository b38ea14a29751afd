//! Running a cluster.
ghost use Rattle.std.specs.Prelude.{◌≡◌, ◌≢◌, ◌<◌, ℕ, List, [], ◌∷◌, Option, IfOk, IfErr, IsErrOf};
ghost use Rattle.std.specs.List.{AllByRecursion};
ghost use Rattle.cs_base.specs.Outside.{HasCause};
ghost use Rattle.cs_io.specs.Outside.{beside};
ghost use Rattle.cs_spawn.specs.Words.{client_words, client_title};
ghost use Rattle.cs_spawn.specs.Deeds.{Start, Wait, numbered, node_starts, call_deeds, node_waits, cluster_deeds};
ghost use Rattle.cs_spawn.specs.Running.{ClusterEnds, ClusterGoesOn};

use crate::children::{await_end, end_all, start};
use crate::error::ClusterError;
use crate::words::{client_title, client_words, node_title, node_words};
use cs_base::{NodeId, Sequence, Sink};
use cs_config::{Plan, Site};
use cs_io::Spawner;
use cs_wire::all_nodes;
use std::alloc::Global;

/// Runs a plan: starts all nodes of the site, runs the calls one after the other, and waits for the
/// nodes; prints a line for each child that has ended. It ends at the first fault, so that each
/// child is started once, and tells each child to end then that was started and not waited for.
pub fn cluster<P: Spawner, K: Sink>(
    alloc: Global,
    spawner: &mut P,
    plan: &Plan,
    site: &Site,
    out: &mut K,
) -> Result<(), ClusterError>
    ensures does { ClusterEnds (cluster_deeds plan.now site.now.config (P.told spawner.old).children)
        (beside (P.told spawner.old) (K.written out.old))
        (beside (P.told spawner.new) (K.written out.new)) result }
    ensures spawner { HasCause (P.faults spawner.old) (P.faults spawner.new)
        (IsErrOf result ClusterError.SpawnFault) }
    ensures sink { HasCause (K.faults out.old) (K.faults out.new)
        (IsErrOf result ClusterError.WriteFault) }
{
    let mut left = Vec::new(alloc);
    match run_children(alloc, spawner, plan, site, &mut left, out) {
        Ok(()) => Ok(()),
        Err(error) => {
            end_all(spawner, &left);
            Err(error)
        }
    }
}

// Runs a plan. The children that are left run on.
fn run_children<P: Spawner, K: Sink>(
    alloc: Global,
    spawner: &mut P,
    plan: &Plan,
    site: &Site,
    left: &mut Vec<u64>,
    out: &mut K,
) -> Result<(), ClusterError>
    ensures does { ClusterGoesOn (cluster_deeds plan.now site.now.config (P.told spawner.old).children)
        left.old.items left.new.items
        (beside (P.told spawner.old) (K.written out.old))
        (beside (P.told spawner.new) (K.written out.new)) result }
    ensures spawner { HasCause (P.faults spawner.old) (P.faults spawner.new)
        (IsErrOf result ClusterError.SpawnFault) }
    ensures sink { HasCause (K.faults out.old) (K.faults out.new)
        (IsErrOf result ClusterError.WriteFault) }
{
    let nodes = all_nodes(alloc, &site.config)?;
    let running = start_nodes(alloc, spawner, plan, nodes.as_slice(), left)?;
    run_calls(alloc, spawner, plan, left, out)?;
    await_nodes(alloc, spawner, running.as_slice(), left, out)
}

// Starts these nodes, and gives each with the number of its child.
fn start_nodes<P: Spawner>(
    alloc: Global,
    spawner: &mut P,
    plan: &Plan,
    nodes: &[NodeId],
    left: &mut Vec<u64>,
) -> Result<Sequence<(NodeId, u64)>, ClusterError>
    ensures does { (written : Option (List ℕ)) → ClusterGoesOn (node_starts plan.now nodes.now)
        left.old.items left.new.items
        (beside (P.told spawner.old) written)
        (beside (P.told spawner.new) written) result }
    ensures running { IfOk result (λ running.
        running ≡ numbered (P.told spawner.old).children nodes.now) }
    ensures other { IfErr result (λ error. error ≢ ClusterError.WriteFault) }
    ensures cause { HasCause (P.faults spawner.old) (P.faults spawner.new)
        (IsErrOf result ClusterError.SpawnFault) }
{
    let mut running = Sequence::new(alloc);
    for me in nodes {
        let words = node_words(alloc, plan, *me)?;
        let child = start(spawner, &words, left)?;
        let Ok(()) = running.push((*me, child)) else {
            return Err(ClusterError::Memory);
        };
    }
    Ok(running)
}

// Runs the calls, one after the other.
fn run_calls<P: Spawner, K: Sink>(
    alloc: Global,
    spawner: &mut P,
    plan: &Plan,
    left: &mut Vec<u64>,
    out: &mut K,
) -> Result<(), ClusterError>
    ensures does { ClusterGoesOn (call_deeds plan.now 0 (P.told spawner.old).children plan.now.calls)
        left.old.items left.new.items
        (beside (P.told spawner.old) (K.written out.old))
        (beside (P.told spawner.new) (K.written out.new)) result }
    ensures spawner { HasCause (P.faults spawner.old) (P.faults spawner.new)
        (IsErrOf result ClusterError.SpawnFault) }
    ensures sink { HasCause (K.faults out.old) (K.faults out.new)
        (IsErrOf result ClusterError.WriteFault) }
{
    for (number, call) in plan.calls.as_slice().iter().enumerate() {
        run_call(alloc, spawner, plan, number, call.as_str(), left, out)?;
    }
    Ok(())
}

// Starts the client of a call, and waits for it.
fn run_call<P: Spawner, K: Sink>(
    alloc: Global,
    spawner: &mut P,
    plan: &Plan,
    number: usize,
    call: &str,
    left: &mut Vec<u64>,
    out: &mut K,
) -> Result<(), ClusterError>
    ensures does { ClusterGoesOn
        (Start (client_words plan.now call.now)
        ∷ Wait (client_title number) (P.told spawner.old).children ∷ [])
        left.old.items left.new.items
        (beside (P.told spawner.old) (K.written out.old))
        (beside (P.told spawner.new) (K.written out.new)) result }
    ensures spawner { HasCause (P.faults spawner.old) (P.faults spawner.new)
        (IsErrOf result ClusterError.SpawnFault) }
    ensures sink { HasCause (K.faults out.old) (K.faults out.new)
        (IsErrOf result ClusterError.WriteFault) }
{
    let words = client_words(alloc, plan, call)?;
    let title = client_title(alloc, number)?;
    let child = start(spawner, &words, left)?;
    await_end(alloc, spawner, &title, child, left, out)
}

// Waits for these nodes, each by the number of its child.
fn await_nodes<P: Spawner, K: Sink>(
    alloc: Global,
    spawner: &mut P,
    running: &[(NodeId, u64)],
    left: &mut Vec<u64>,
    out: &mut K,
) -> Result<(), ClusterError>
    requires { AllByRecursion (λ node. node.1 < (P.told spawner.old).children) running.now }
    ensures does { ClusterGoesOn (node_waits running.now) left.old.items left.new.items
        (beside (P.told spawner.old) (K.written out.old))
        (beside (P.told spawner.new) (K.written out.new)) result }
    ensures spawner { HasCause (P.faults spawner.old) (P.faults spawner.new)
        (IsErrOf result ClusterError.SpawnFault) }
    ensures sink { HasCause (K.faults out.old) (K.faults out.new)
        (IsErrOf result ClusterError.WriteFault) }
{
    for node in running {
        let title = node_title(alloc, node.0)?;
        await_end(alloc, spawner, &title, node.1, left, out)?;
    }
    Ok(())
}

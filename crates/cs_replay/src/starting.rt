//! The start of the nodes of a schedule.
ghost use Rattle.std.specs.Prelude.{◌≡◌, [], length, true, IfOk};
ghost use Rattle.cs_base.specs.NodeId.{is_node};
ghost use Rattle.cs_node_rules.specs.Site.{start_view};
ghost use Rattle.cs_sched.specs.Playable.{IsPlayable};
ghost use Rattle.cs_sbac.specs.Genesis.{keyed_from};
ghost use Rattle.cs_node.specs.Cores.{CoreStandsFor};
ghost use Rattle.cs_replay_play.specs.Standing.{AllStand};
ghost use Rattle.cs_replay.specs.Site.{site_of_schedule};
ghost use Rattle.cs_replay.specs.Settings.{honest_nodes, name_at_place};

use cs_base::{Key, Memory, NodeId};
use cs_log::SlotOrder;
use cs_node::{Core, keys_of_a_master_speak};
use cs_node_run::start;
use cs_order::Order;
use cs_sbac::keyed;
use cs_sched::{Schedule, is_liar};
use cs_tx::{Judge, Object};
use cs_wire::Keys;
use std::alloc::Global;

/// The honest nodes of a schedule before their first input.
pub fn start_nodes<J: Judge + Copy + Drop>(
    alloc: Global,
    schedule: &Schedule,
    judge: J,
) -> Result<Vec<Core<SlotOrder, J>>, Memory>
    requires { IsPlayable schedule.now }
    ensures nodes { IfOk result (λ cores.
        AllStand ⟦<SlotOrder as Order>⟧.stands J.is_approved
        (site_of_schedule (J.is_approved judge) schedule.now)
        (name_at_place (honest_nodes schedule.now)) cores.items []) }
    ensures count { IfOk result (λ cores.
        length cores.items ≡ length (honest_nodes schedule.now)) }
{
    let genesis = keyed(alloc, schedule.genesis.as_slice())?;
    let names = honest_nodes(alloc, schedule)?;
    let mut cores = Vec::new(alloc);
    for name in &names {
        let core = start_node(alloc, schedule, judge, genesis.as_slice(), *name)?;
        cores.push(core)?;
    }
    Ok(cores)
}

// The nodes that don't lie, shard by shard.
fn honest_nodes(alloc: Global, schedule: &Schedule) -> Result<Vec<NodeId>, Memory>
    ensures { IfOk result (λ names. names.items ≡ honest_nodes schedule.now) }
{
    let members = 3 * schedule.config.f + 1;
    let mut names = Vec::new(alloc);
    for number in 0..schedule.config.shards * members {
        let name = NodeId {
            shard: number / members,
            index: number % members,
        };
        if !is_liar(schedule.liars.as_slice(), name) {
            names.push(name)?;
        }
    }
    Ok(names)
}

// A node.
fn start_node<J: Judge + Copy + Drop>(
    alloc: Global,
    schedule: &Schedule,
    judge: J,
    genesis: &[(Key, Object)],
    name: NodeId,
) -> Result<Core<SlotOrder, J>, Memory>
    requires playable { IsPlayable schedule.now }
    requires genesis { genesis.now ≡ keyed_from 0 schedule.now.genesis }
    requires node { is_node schedule.now.config name ≡ true }
    ensures { IfOk result (λ core.
        CoreStandsFor ⟦<SlotOrder as Order>⟧.stands J.is_approved
        (site_of_schedule (J.is_approved judge) schedule.now) core
        (start_view (site_of_schedule (J.is_approved judge) schedule.now) name)) }
{
    keys_of_a_master_speak();
    let keys = Keys::from_master(alloc, &schedule.config, &schedule.master, name)?;
    start(alloc, schedule.config, keys, judge, genesis)
}

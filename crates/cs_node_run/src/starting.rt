//! The start of a node.
ghost use Rattle.std.specs.Prelude.{◌≡◌, IfOk, List, true};
ghost use Rattle.cs_base.specs.NodeId.{is_node};
ghost use Rattle.cs_base.specs.declared.version.Version.TheVariants.{One};
ghost use Rattle.cs_tx_value.specs.declared.object.Object.{Object as AnyObject};
ghost use Rattle.cs_order_rules.specs.SlotMachine.{slot_machine};
ghost use Rattle.cs_node_rules.specs.Net.{Net};
ghost use Rattle.cs_node_rules.specs.Site.{start_view};
ghost use Rattle.cs_node_rules.specs.Deployment.{site_of};
ghost use Rattle.cs_node_wire.specs.SlotCarried.{slot_carrier};
ghost use Rattle.cs_node_pool.specs.Deployed.{deployed_setup};
ghost use Rattle.cs_sbac.specs.Genesis.{keyed_from};
ghost use Rattle.cs_node.specs.Speaking.{Speaks};
ghost use Rattle.cs_node.specs.Cores.{CoreStandsFor};
ghost use Rattle.cs_node_run.specs.Genesis.{IsGenesis};

use cs_base::{Config, Key, Memory};
use cs_log::SlotOrder;
use cs_node::{Core, StartError};
use cs_order::Order;
use cs_tx::{Judge, Object};
use cs_wire::Keys;
use std::alloc::Global;

/// The node that holds the keys, which are of version 1 as the configuration is, before its first
/// input, in whatever net they speak.
pub fn start<J: Judge + Drop>(
    alloc: Global,
    config: Config,
    keys: Keys,
    judge: J,
    genesis: &[(Key, Object)],
) -> Result<Core<SlotOrder, J>, Memory>
    requires first { keys.version ≡ One }
    requires version { config.version ≡ 1 }
    requires node { is_node config keys.me ≡ true }
    requires genesis { (objects : List AnyObject) × IsGenesis objects genesis.now }
    ensures { (objects : List AnyObject) → genesis.now ≡ keyed_from 0 objects →
        (net : Net) → Speaks config net keys →
        let setup = deployed_setup config objects (J.is_approved judge) in
        let site = site_of setup net slot_machine slot_carrier in
        IfOk result (λ core.
        CoreStandsFor ⟦<SlotOrder as Order>⟧.stands J.is_approved site core (start_view site keys.me)) }
{
    let order = SlotOrder::new(alloc, config.f, keys.me().index)?;
    match Core::start(alloc, config, keys, judge, genesis, order) {
        Ok(core) => Ok(core),
        // The names of the objects differ.
        Err(StartError::Duplicate(_)) => unreachable!(),
        Err(StartError::Memory) => Err(Memory),
    }
}

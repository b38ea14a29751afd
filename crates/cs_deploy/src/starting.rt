//! The start of a node.
ghost use Rattle.std.specs.Prelude.{IfOk};
ghost use Rattle.cs_node_rules.specs.Net.{Net};
ghost use Rattle.cs_node_rules.specs.Site.{start_view};
ghost use Rattle.cs_node.specs.Speaking.{Speaks};
ghost use Rattle.cs_node.specs.Cores.{CoreStandsFor};
ghost use Rattle.cs_deploy.specs.declared.keys.Role.TheVariants.{Node};
ghost use Rattle.cs_deploy.specs.Setups.{IsSoundSetup};
ghost use Rattle.cs_deploy.specs.Node.{site_of_setup};

use crate::Setup;
use cs_base::Memory;
use cs_log::SlotOrder;
use cs_native::RuledBook;
use cs_node::Core;
use cs_node_run::start;
use cs_order::Order;
use cs_sbac::keyed;
use cs_tx::Judge;
use std::alloc::Global;

/// The node of a setup, before its first input.
pub fn start_node(alloc: Global, setup: Setup) -> Result<Core<SlotOrder, RuledBook>, Memory>
    requires { IsSoundSetup Node setup }
    ensures { (net : Net) → Speaks setup.site.config net setup.keys →
        let site = site_of_setup setup net in
        IfOk result (λ core.
        CoreStandsFor ⟦<SlotOrder as Order>⟧.stands ⟦<RuledBook as Judge>⟧.is_approved site core
        (start_view site setup.keys.me)) }
{
    let Setup { site, book, keys } = setup;
    let genesis = keyed(alloc, site.genesis.as_slice())?;
    let judge = RuledBook::new(book);
    start(alloc, site.config, keys, judge, genesis.as_slice())
}

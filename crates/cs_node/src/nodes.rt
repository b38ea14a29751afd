//! One node.
ghost use Rattle.std.specs.Prelude.{◌≡◌, IfOk, List, true};
ghost use Rattle.cs_base.specs.NodeId.{is_node};
ghost use Rattle.cs_base.specs.declared.version.Version.TheVariants.{One};
ghost use Rattle.cs_tx_value.specs.declared.object.Object.{Object as AnyObject};
ghost use Rattle.cs_node_state.specs.Setup.{Setup};
ghost use Rattle.cs_node_rules.specs.Net.{Net};
ghost use Rattle.cs_node_rules.specs.Site.{Site, View, start_view};
ghost use Rattle.cs_node_rules.specs.declared.cause.Cause.{Cause as AnyCause};
ghost use Rattle.cs_node_rules.specs.Trail.{drops, input_marks};
ghost use Rattle.cs_node_rules.specs.Deployment.{site_of};
ghost use Rattle.cs_check_rules.specs.Chain.{kept_of};
ghost use Rattle.cs_node_pool.specs.Deployed.{deployed_setup};
ghost use Rattle.cs_table.specs.Genesis.{twice};
ghost use Rattle.cs_node.specs.Notes.{NotesFit};
ghost use Rattle.cs_sbac.specs.Genesis.{keyed_from, AreObjects};
ghost use Rattle.cs_node.specs.Setups.{NodeStarts};
ghost use Rattle.cs_node.specs.Speaking.{Speaks, input_of, sender_of};
ghost use Rattle.cs_node.specs.Steps.{Event, IsDropped};
ghost use Rattle.cs_node.specs.Cores.{CoreStandsFor};

use crate::draft::Draft;
use crate::engine::Engine;
use crate::node_core::{Core, OwnKeys};
use crate::outs::{Made, seal_draft};
use cs_base::{Config, Key, Memory, NodeId};
use cs_check::{Chain, root_is_shown};
use cs_docket::Docket;
use cs_node_wire::Carried;
use cs_order::Order;
use cs_sbac::Sbac;
use cs_table::{Table, TableError};
use cs_tx::{Judge, Object};
use cs_wire::{Input, Keys, open};
use std::alloc::Global;

/// Why a node can't start.
#[derive(Clone, Copy, Drop, Debug, PartialEq, Eq)]
pub enum StartError {
    /// Two genesis objects of the node's shard have this key.
    Duplicate(Key),
    Memory,
}

impl From<Memory> for StartError {
    ghost use Rattle.std.specs.Prelude.{◌≡◌};
    ghost use Rattle.cs_node.specs.declared.nodes.StartError.TheVariants.{Memory as NoMemory};

    ghost from_gives = { λ _ e. e ≡ NoMemory };

    fn from(_e: Memory) -> StartError {
        StartError::Memory
    }
}

impl<O: Carried, J: Judge + Drop> Core<O, J> {
    /// The node that holds the keys, which are of version 1 as the configuration is, before its
    /// first input. The genesis objects of all shards are given, each under its key, by which the node
    /// knows those of its own.
    pub fn start(
        alloc: Global,
        config: Config,
        keys: Keys,
        judge: J,
        genesis: &[(Key, Object)],
        order: O,
    ) -> Result<Core<O, J>, StartError>
        requires first { keys.version ≡ One }
        requires version { config.version ≡ 1 }
        requires node { is_node config keys.me ≡ true }
        requires objects { AreObjects genesis.now }
        requires start { O.at_start order }
        requires f { O.f order ≡ config.f }
        requires me { O.me order ≡ keys.me.index }
        ensures starts { NodeStarts (twice config.shards keys.me.shard genesis.now) result }
        ensures stands { (objects : List AnyObject) → genesis.now ≡ keyed_from 0 objects →
            (net : Net) → Speaks config net keys →
            let setup = deployed_setup config objects (J.is_approved judge) in
            let site = site_of setup net O.rules O.carrier in
            IfOk result (λ core.
            CoreStandsFor O.stands J.is_approved site core (start_view site keys.me)) }
    {
        let me = keys.me();
        let table = match Table::genesis(alloc, config, me.shard, genesis) {
            Ok(table) => table,
            Err(TableError::Duplicate(key)) => return Err(StartError::Duplicate(key)),
            Err(TableError::Memory) => return Err(StartError::Memory),
        };
        root_is_shown(&table);
        let sbac = Sbac::new(alloc, config, me, table)?;
        let judge = Docket::new(alloc, judge);
        let engine = Engine { order, judge, sbac };
        let own = OwnKeys { keys };
        Ok(Core { own, engine })
    }

    /// One event: the node after it, with what comes of an input, and of the rules until none
    /// applies. After a want of memory there is no node.
    pub fn step(self, alloc: Global, input: Input<'_>) -> Result<(Core<O, J>, Made), Memory>
        ensures event { (setup : Setup) (net : Net) (v : View O.Message) →
            let site = site_of setup net O.rules O.carrier in
            CoreStandsFor O.stands J.is_approved site self v →
            IfOk result (λ stepped. Event site v (input_of input.entry) stepped.1
            (CoreStandsFor O.stands J.is_approved site stepped.0)) }
        ensures dropped { (setup : Setup) (net : Net) (v : View O.Message) (cause : AnyCause) →
            let site = site_of setup net O.rules O.carrier in
            let given = input_of input.entry in
            CoreStandsFor O.stands J.is_approved site self v →
            input_marks site v given ≡ drops cause →
            IfOk result (λ stepped. IsDropped site v given cause stepped.1
            (CoreStandsFor O.stands J.is_approved site stepped.0)) }
        ensures fits { IfOk result (λ stepped. NotesFit stepped.1.notes) }
    {
        let Core { own, mut engine } = self;
        let mut draft = Draft::new(alloc);
        engine.take_in(alloc, &own.keys, &mut draft, input)?;
        engine.settle(alloc, &mut draft)?;
        let made = seal_draft(alloc, &own.keys, draft)?;
        Ok((Core { own, engine }, made))
    }

    /// The name of the node.
    pub fn me(&self) -> NodeId
        ensures { (site : Site O.Message) (v : View O.Message) →
            CoreStandsFor O.stands J.is_approved site self.now v → result ≡ v.me }
    {
        self.own.keys.me()
    }

    /// The chain of its checkpoints.
    pub fn chain(&self) -> &Chain
        ensures { (site : Site O.Message) (v : View O.Message) →
            CoreStandsFor O.stands J.is_approved site self.now v →
            result.now.kept ≡ kept_of v.bench.log }
    {
        self.engine.sbac.chain()
    }

    /// As whom bytes open at this node, if they open. It takes no memory.
    pub fn sender(&self, bytes: &[u8]) -> Option<NodeId>
        ensures { (site : Site O.Message) (v : View O.Message) →
            CoreStandsFor O.stands J.is_approved site self.now v →
            result ≡ sender_of (site.net.opened v.me bytes.now) }
    {
        match open(&self.own.keys, bytes) {
            Ok(found) => Some(found.0),
            Err(_) => None,
        }
    }
}

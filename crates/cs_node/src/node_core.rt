//! What makes up one node.
ghost use Rattle.std.specs.Prelude.{◌≡◌};
ghost use Rattle.cs_base.specs.declared.version.Version.TheVariants.{One};

use crate::engine::Engine;
use cs_order::Order;
use cs_tx::Judge;
use cs_wire::Keys;

/// The keys that a node holds: they are of version 1.
#[derive(Drop)]
pub(crate) struct OwnKeys {
    pub(crate) keys: Keys,
    ghost first: { keys.version ≡ One },
}

/// One node: its keys, its order, its table, its pool, and what it keeps for checkpoints.
#[derive(Drop)]
pub struct Core<O: Order, J: Judge + Drop> {
    pub(crate) own: OwnKeys,
    pub(crate) engine: Engine<O, J>,
}

//! Dumps.
ghost use Rattle.cs_audit_dump.specs.Drafts.{empty_dump_log};
ghost use Rattle.std.specs.Prelude.{◌≡◌};

use cs_base::{Config, Sequence};
use cs_tx::{Digest, Leaf, Object};
use std::alloc::Global;

/// What a ledger hands to an auditor: the log of each shard in order, and the history.
#[derive(Drop)]
pub struct Dump {
    pub config: Config,
    pub contracts: Sequence<Sequence<u8>>,
    pub genesis: Sequence<Object>,
    pub logs: Sequence<Log>,
    pub history: Sequence<Digest>,
}

/// The log of a shard: the leaves of its slots, and the head of the checkpoint after every 16th.
#[derive(Drop)]
pub struct Log {
    pub leaves: Sequence<Leaf>,
    pub heads: Sequence<Digest>,
}

// The log of no slot.
pub(crate) fn no_slot(alloc: Global) -> Log
    ensures { result ≡ empty_dump_log }
{
    Log {
        leaves: Sequence::new(alloc),
        heads: Sequence::new(alloc),
    }
}

//! The keys that a master key gives a name, one peer after the other.
ghost use Rattle.std.specs.Prelude.{◌≡◌, [], ◌∷◌, ◌++◌, IfOk, OnOk};
ghost use Rattle.cs_wire.specs.AllNames.{names_of};
ghost use Rattle.cs_config.specs.Printed.{listed_between, list_with, ListedFits, AllListedFit};

use cs_base::{Config, Memory, NodeId, Sequence};
use cs_tx_value::Digest;
use cs_wire::{all_names, key_between};
use std::alloc::Global;

fn listed_between(
    alloc: Global,
    master: &Digest,
    me: NodeId,
    peer: NodeId,
) -> Result<(NodeId, Digest, Digest), Memory>
    ensures is { IfOk result (λ listed. listed ≡ listed_between master.now me peer) }
    ensures fits { IfOk result ListedFits }
{
    let to = key_between(alloc, master, me, peer)?;
    let from = key_between(alloc, master, peer, me)?;
    Ok((peer, to, from))
}

// Adds what is shared with a name, where it isn't me.
#[tactic(auto, using(crate::proofs::Listed::listed_mine, crate::proofs::Listed::listed_other, crate::proofs::Listed::fits_push))]
fn add_listed(
    alloc: Global,
    master: &Digest,
    me: NodeId,
    name: NodeId,
    list: &mut Sequence<(NodeId, Digest, Digest)>,
) -> Result<(), Memory>
    ensures is { OnOk result (list.new ≡ list.old ++ list_with master.now me (name ∷ [])) }
    ensures fits { AllListedFit list.old → OnOk result (AllListedFit list.new) }
{
    if name == me {
        return Ok(());
    }
    let listed = listed_between(alloc, master, me, name)?;
    list.push(listed)?;
    Ok(())
}

fn list_with(
    alloc: Global,
    master: &Digest,
    me: NodeId,
    names: &[NodeId],
) -> Result<Sequence<(NodeId, Digest, Digest)>, Memory>
    ensures is { IfOk result (λ list. list ≡ list_with master.now me names.now) }
    ensures fits { IfOk result AllListedFit }
{
    let mut list = Sequence::new(alloc);
    for name in names {
        add_listed(alloc, master, me, *name, &mut list)?;
    }
    Ok(list)
}

/// What is shared with all nodes and clients of the configuration, but for me.
pub fn list_with_all(
    alloc: Global,
    config: &Config,
    master: &Digest,
    me: NodeId,
) -> Result<Sequence<(NodeId, Digest, Digest)>, Memory>
    ensures is { IfOk result (λ list. list ≡ list_with master.now me (names_of config.now)) }
    ensures fits { IfOk result AllListedFit }
{
    let names = all_names(alloc, config)?;
    list_with(alloc, master, me, names.as_slice())
}

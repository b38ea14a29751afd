//! What a client says in each phase.
ghost use Rattle.std.specs.Prelude.{◌≡◌, ◌++◌, None, Some, OnOk};
ghost use Rattle.std.specs.List.{flat_map};
ghost use Rattle.cs_base.specs.declared.config.Config.{Config as AnyConfig};
ghost use Rattle.cs_base.specs.declared.key.Key.TheVariants as key;
ghost use Rattle.cs_tx_types.specs.Session.{SessionFits};
ghost use Rattle.cs_wire_message.specs.declared.message.Message.TheVariants as message;
ghost use Rattle.cs_client.specs.Nodes.{nodes_in, nodes_of_shards};
ghost use Rattle.cs_client.specs.Sayings.{say_to_each, outs_of_sayings, asks_on, wants_one, wants_from, wants_in};

use crate::nodes::nodes_of;
use crate::offers::{say, say_body};
use cs_base::{Config, Key, Memory, NodeId, Sequence, shard_of};
use cs_dummies::MOST_ASKED;
use cs_tx_types::Session;
use cs_tx_value::{Digest, Encoded};
use cs_wire::{Keys, Message, Out};
use cs_wire_message::kinds::SUBMIT;
use std::alloc::Global;

// Asks the nodes of its shard for an object.
fn ask(
    alloc: Global,
    config: &Config,
    keys: &Keys,
    name: Digest,
    outs: &mut Sequence<Out>,
) -> Result<(), Memory>
    ensures { OnOk result
        (outs.new ≡ outs.old ++ outs_of_sayings keys.now (asks_on config.now name)) }
{
    let key = Key::Object(name);
    let nodes = nodes_of(alloc, config, &[shard_of(config, &key)])?;
    say(
        alloc,
        keys,
        nodes.as_slice(),
        &Message::Ask(Some(key)),
        outs,
    )
}

/// Asks for each of these objects.
pub fn ask_each(
    alloc: Global,
    config: &Config,
    keys: &Keys,
    names: &[Digest],
    outs: &mut Sequence<Out>,
) -> Result<(), Memory>
    ensures { OnOk result
        (outs.new ≡ outs.old ++ outs_of_sayings keys.now (flat_map (asks_on config.now) names.now)) }
{
    for name in names {
        ask(alloc, config, keys, *name, outs)?;
    }
    Ok(())
}

// Asks the nodes of these shards for any dummy.
fn want_any(
    alloc: Global,
    config: &Config,
    keys: &Keys,
    shards: &[u16],
    outs: &mut Sequence<Out>,
) -> Result<(), Memory>
    ensures { OnOk result
        (outs.new ≡ outs.old ++ outs_of_sayings keys.now (wants_in config.now None shards.now)) }
{
    let nodes = nodes_of(alloc, config, shards)?;
    say(alloc, keys, nodes.as_slice(), &Message::Ask(None), outs)
}

// Asks these nodes of a shard for the dummy so far behind the first one.
fn want_one(
    alloc: Global,
    keys: &Keys,
    nodes: &[NodeId],
    first: u64,
    shard: u16,
    number: u64,
    outs: &mut Sequence<Out>,
) -> Result<(), Memory>
    ensures { (config : AnyConfig) → nodes.now ≡ nodes_in config.f shard → OnOk result
        (outs.new ≡ outs.old ++ outs_of_sayings keys.now (wants_one config first shard number)) }
{
    match first.checked_add(number) {
        Some(serial) => {
            let message = Message::Ask(Some(Key::Dummy(shard, serial)));
            say(alloc, keys, nodes, &message, outs)
        }
        None => Ok(()),
    }
}

// Asks the nodes of a shard for its dummies from the first one on.
fn want_from(
    alloc: Global,
    config: &Config,
    keys: &Keys,
    first: u64,
    shard: u16,
    outs: &mut Sequence<Out>,
) -> Result<(), Memory>
    ensures { OnOk result
        (outs.new ≡ outs.old ++ outs_of_sayings keys.now (wants_from config.now first shard)) }
{
    let nodes = nodes_of(alloc, config, &[shard])?;
    for number in 0..MOST_ASKED {
        want_one(alloc, keys, nodes.as_slice(), first, shard, number, outs)?;
    }
    Ok(())
}

// The same of each of these shards.
fn want_each(
    alloc: Global,
    config: &Config,
    keys: &Keys,
    first: u64,
    shards: &[u16],
    outs: &mut Sequence<Out>,
) -> Result<(), Memory>
    ensures { OnOk result (outs.new ≡ outs.old
        ++ outs_of_sayings keys.now (flat_map (wants_from config.now first) shards.now)) }
{
    for shard in shards {
        want_from(alloc, config, keys, first, *shard, outs)?;
    }
    Ok(())
}

/// Asks the nodes of these shards for dummies, from the first one on or for any.
pub fn want_dummies(
    alloc: Global,
    config: &Config,
    keys: &Keys,
    first: Option<u64>,
    shards: &[u16],
    outs: &mut Sequence<Out>,
) -> Result<(), Memory>
    ensures { OnOk result
        (outs.new ≡ outs.old ++ outs_of_sayings keys.now (wants_in config.now first shards.now)) }
{
    match first {
        Some(first) => want_each(alloc, config, keys, first, shards, outs),
        None => want_any(alloc, config, keys, shards, outs),
    }
}

/// Submits a session to these nodes.
pub fn submit_to(
    alloc: Global,
    keys: &Keys,
    nodes: &[NodeId],
    session: &Session,
    outs: &mut Sequence<Out>,
) -> Result<(), Memory>
    requires { SessionFits session.now }
    ensures { let sayings = say_to_each nodes.now (message.Submit session.now) in
        OnOk result (outs.new ≡ outs.old ++ outs_of_sayings keys.now sayings) }
{
    let body = session.to_bytes(alloc)?;
    say_body(alloc, keys, nodes, SUBMIT, &body, outs)
}

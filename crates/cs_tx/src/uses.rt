//! The shards that a session concerns, and its anchor in each.
ghost use Rattle.std.specs.Prelude.{◌≡◌, ◌↔◌, IfOk, IsNone, Some, false, find};
ghost use Rattle.std.specs.List.{flat_map};
ghost use Rattle.cs_tx_types.specs.Session.{SessionFits};
ghost use Rattle.cs_tx.specs.Uses.{is_in, is_among, concerns, concerned_shards, names, used_names, dummy_in, anchor_of};
ghost use Rattle.cs_tx.specs.WellFormed.{IsWellFormed};

use crate::names::Names;
use cs_base::{Config, Key, Memory, shard_of};
use cs_tx_types::{Session, Trace};
use cs_tx_value::{Digest, Object};
use std::alloc::Global;

/// Whether one of the names is that of a key in the shard.
pub fn is_one_in(config: &Config, shard: u16, names: &[Digest]) -> bool
    ensures { result ≡ is_among config.now shard names.now }
{
    names
        .iter()
        .any(|name| shard_of(config, &Key::Object(*name)) == shard)
}

impl Names {
    ghost use Rattle.std.specs.Prelude.{◌≡◌};
    ghost use Rattle.cs_tx.specs.Uses.{all_of, is_among};

    /// Whether the shard is that of an input, a reference or an output.
    pub fn concern(&self, config: &Config, shard: u16) -> bool
        ensures { result ≡ is_among config.now shard (all_of self.now) }
    {
        is_one_in(config, shard, self.inputs.as_slice())
            || is_one_in(config, shard, self.references.as_slice())
            || is_one_in(config, shard, self.outputs.as_slice())
    }
}

/// The shards of a session's inputs, references and outputs, in rising order.
pub fn concerned(alloc: Global, session: &Session, config: &Config) -> Result<Vec<u16>, Memory>
    requires { SessionFits session.now }
    ensures { IfOk result (λ shards. shards.items ≡ concerned_shards config.now session.now) }
{
    let names = Names::of(alloc, &session.tx)?;
    let mut shards = Vec::new(alloc);
    for shard in 0..config.shards {
        if names.concern(config, shard) {
            shards.push(shard)?;
        }
    }
    Ok(shards)
}

/// The first of the objects' names that is that of a key in the shard.
fn first_in(config: &Config, shard: u16, items: &[(Digest, Object)]) -> Option<Digest>
    ensures { result ≡ find (is_in config.now shard) (names items.now) }
{
    for item in items {
        if shard_of(config, &Key::Object(item.0)) == shard {
            return Some(item.0);
        }
    }
    None
}

fn first_dummy_in(shard: u16, dummies: &[(u16, u64)]) -> Option<Key>
    ensures { result ≡ dummy_in shard dummies.now }
{
    for dummy in dummies {
        if dummy.0 == shard {
            return Some(Key::Dummy(dummy.0, dummy.1));
        }
    }
    None
}

fn first_input_in(config: &Config, shard: u16, traces: &[Trace]) -> Option<Digest>
    ensures { result ≡
        find (is_in config.now shard) (names (flat_map (λ trace. trace.inputs) traces.now)) }
{
    for trace in traces {
        if let Some(name) = first_in(config, shard, trace.inputs.as_slice()) {
            return Some(name);
        }
    }
    None
}

/// The first input of a session in a shard, or else its dummy there.
pub fn anchor(session: &Session, config: &Config, shard: u16) -> Option<Key>
    requires { IsWellFormed config.now session.now }
    ensures first { result ≡ anchor_of config.now session.now shard }
    ensures concerned { IsNone result ↔ (concerns config.now session.now shard ≡ false) }
{
    match first_input_in(config, shard, session.tx.traces.as_slice()) {
        Some(name) => Some(Key::Object(name)),
        None => first_dummy_in(shard, session.dummies.as_slice()),
    }
}

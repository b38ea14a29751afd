//! The lines of a dump.
ghost use Rattle.std.specs.Prelude.{◌≡◌, IfOk, string_bytes, option_copied};
ghost use Rattle.std.specs.List.{flat_map, All};
ghost use Rattle.cs_base.specs.Codes.{bytes_text};
ghost use Rattle.cs_tx_value.specs.Object.{ObjectFits, object_encoding};
ghost use Rattle.cs_replay_rules.specs.Dumps.{dumped_leaf, dumped_head, dumped_contract};
ghost use Rattle.cs_replay_play.specs.Longest.{logged_or_empty};
ghost use Rattle.cs_replay.specs.Lines.{settings_text, object_line, log_line, logged_text};

use cs_base::{Config, Memory, Sequence, print_bytes};
use cs_replay_play::NodeLog;
use cs_tx_value::{Digest, Encoded, Object};
use std::alloc::Global;

/// The first lines: the numbers of a configuration.
pub(crate) fn settings_text(alloc: Global, config: Config) -> Result<String, Memory>
    ensures { IfOk result (λ text.
        string_bytes text ≡ settings_text config.shards config.f config.dummies) }
{
    let (shards, faulty, dummies) = (config.shards, config.f, config.dummies);
    Ok(format!(in alloc; "dump\nshards {shards}\nfaulty {faulty}\ndummies {dummies}\n")?)
}

pub(crate) fn contract_lines(alloc: Global, contracts: &[Sequence<u8>]) -> Result<String, Memory>
    ensures { IfOk result (λ text. string_bytes text ≡ flat_map dumped_contract contracts.now) }
{
    let mut text = String::new(alloc);
    for contract in contracts {
        let contract = print_bytes(alloc, contract.as_slice())?;
        let line = format!(in alloc; "contract {contract}\n")?;
        text.push_str(&line)?;
    }
    Ok(text)
}

pub(crate) fn genesis_lines(alloc: Global, objects: &[Object]) -> Result<String, Memory>
    requires { All ObjectFits objects.now }
    ensures { IfOk result (λ text. string_bytes text ≡ flat_map object_line objects.now) }
{
    let mut text = String::new(alloc);
    for object in objects {
        let object = object_text(alloc, object)?;
        let line = format!(in alloc; "genesis {object}\n")?;
        text.push_str(&line)?;
    }
    Ok(text)
}

fn object_text(alloc: Global, object: &Object) -> Result<String, Memory>
    requires { ObjectFits object.now }
    ensures { IfOk result (λ text. string_bytes text ≡ bytes_text (object_encoding object.now)) }
{
    print_bytes(alloc, &object.to_bytes(alloc)?)
}

/// The log of a shard; where there is none, that of no slot.
pub(crate) fn log_text(alloc: Global, shard: u16, log: Option<&NodeLog>) -> Result<String, Memory>
    ensures { IfOk result (λ text.
        string_bytes text ≡ logged_text shard (logged_or_empty (option_copied log.entry))) }
{
    match log {
        Some(log) => node_log_text(alloc, shard, log),
        None => log_line(alloc, shard, 0),
    }
}

fn log_line(alloc: Global, shard: u16, slots: u64) -> Result<String, Memory>
    ensures { IfOk result (λ text. string_bytes text ≡ log_line shard slots) }
{
    Ok(format!(in alloc; "log {shard} {slots}\n")?)
}

fn node_log_text(alloc: Global, shard: u16, log: &NodeLog) -> Result<String, Memory>
    ensures { IfOk result (λ text. string_bytes text ≡ logged_text shard log.now) }
{
    let mut text = log_line(alloc, shard, log.slots())?;
    let leaves = leaf_lines(alloc, log.leaves())?;
    text.push_str(&leaves)?;
    let heads = head_lines(alloc, log.heads())?;
    text.push_str(&heads)?;
    Ok(text)
}

fn leaf_lines(alloc: Global, leaves: &[Sequence<u8>]) -> Result<String, Memory>
    ensures { IfOk result (λ text. string_bytes text ≡ flat_map dumped_leaf leaves.now) }
{
    let mut text = String::new(alloc);
    for leaf in leaves {
        let leaf = print_bytes(alloc, leaf.as_slice())?;
        let line = format!(in alloc; "leaf {leaf}\n")?;
        text.push_str(&line)?;
    }
    Ok(text)
}

fn head_lines(alloc: Global, heads: &[Digest]) -> Result<String, Memory>
    ensures { IfOk result (λ text. string_bytes text ≡ flat_map dumped_head heads.now) }
{
    let mut text = String::new(alloc);
    for head in heads {
        let head = print_bytes(alloc, head.as_slice())?;
        let line = format!(in alloc; "head {head}\n")?;
        text.push_str(&line)?;
    }
    Ok(text)
}

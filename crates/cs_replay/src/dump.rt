//! The dump.
ghost use Rattle.std.specs.Prelude.{◌≡◌, ◌++◌, IfOk, string_bytes};
ghost use Rattle.std.specs.List.{flat_map, All};
ghost use Rattle.cs_tx_value.specs.Object.{ObjectFits};
ghost use Rattle.cs_replay_rules.specs.Dumps.{dumped_contract, logs_text, dump_text};
ghost use Rattle.cs_replay_play.specs.Standing.{site_in};
ghost use Rattle.cs_replay_play.specs.Ends.{WhereStands};
ghost use Rattle.cs_replay.specs.Lines.{settings_text, object_line};
ghost use Rattle.cs_replay.specs.Settled.{IsSetupOf};

use crate::lines::{contract_lines, genesis_lines, log_text, settings_text};
use cs_base::{Config, Memory};
use cs_node::Carried;
use cs_replay_play::{Replay, history_text};
use cs_sched::Schedule;
use cs_tx::Judge;
use std::alloc::Global;

/// The dump of a replay of the schedule: its configuration, contracts and genesis, the log of each
/// shard with its heads, and the history.
pub fn dump_text<O: Carried, J: Judge + Drop>(
    alloc: Global,
    replay: &Replay<O, J>,
    schedule: &Schedule,
) -> Result<String, Memory>
    requires { All ObjectFits schedule.now.genesis }
    ensures { WhereStands O.stands J.is_approved O.rules O.carrier replay.now (λ s p.
        IsSetupOf schedule.now s.setup → IfOk result (λ text. string_bytes text
        ≡ dump_text (site_in O.rules O.carrier s) schedule.now.contracts p.world)) }
{
    let mut text = given_text(alloc, schedule)?;
    let logs = logs_text(alloc, replay, schedule.config)?;
    text.push_str(&logs)?;
    let history = history_text(alloc, replay.history.told())?;
    text.push_str(&history)?;
    text.push_str("end\n")?;
    Ok(text)
}

// What was given: the configuration, the contracts and the genesis.
fn given_text(alloc: Global, schedule: &Schedule) -> Result<String, Memory>
    requires { All ObjectFits schedule.now.genesis }
    ensures { IfOk result (λ text.
        let config = schedule.now.config in
        string_bytes text ≡ (settings_text config.shards config.f config.dummies
        ++ flat_map dumped_contract schedule.now.contracts)
        ++ flat_map object_line schedule.now.genesis) }
{
    let mut text = settings_text(alloc, schedule.config)?;
    let contracts = contract_lines(alloc, schedule.contracts.as_slice())?;
    text.push_str(&contracts)?;
    let genesis = genesis_lines(alloc, schedule.genesis.as_slice())?;
    text.push_str(&genesis)?;
    Ok(text)
}

// The logs of all shards.
fn logs_text<O: Carried, J: Judge + Drop>(
    alloc: Global,
    replay: &Replay<O, J>,
    config: Config,
) -> Result<String, Memory>
    ensures { WhereStands O.stands J.is_approved O.rules O.carrier replay.now (λ s p.
        s.setup.f ≡ config.f → IfOk result (λ text. string_bytes text
        ≡ logs_text (site_in O.rules O.carrier s) p.world config.shards)) }
{
    let mut text = String::new(alloc);
    for shard in 0..config.shards {
        let longest = replay.shard_log(config, shard);
        let log = log_text(alloc, shard, longest)?;
        text.push_str(&log)?;
    }
    Ok(text)
}

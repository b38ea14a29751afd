//! Decisions, and the votes that support them.
ghost use Rattle.std.specs.Prelude.{◌≡◌, List, Bool, IfOk, map};
ghost use Rattle.std.specs.List.{All};
ghost use Rattle.cs_base.specs.declared.version.Version.TheVariants.{One};
ghost use Rattle.cs_tx_types.specs.Log.{LeafFits};
ghost use Rattle.cs_node_pool.specs.Deployed.{AtEverySetup};
ghost use Rattle.cs_audit_dump.specs.declared.dump.Log.{Log as AnyLog};
ghost use Rattle.cs_audit_dump.specs.Formed.{IsFormed};
ghost use Rattle.cs_audit_rules.specs.Support.{is_supported, unsupported as unsupported_of, support_fault};
ghost use Rattle.cs_audit.specs.Kept.{digest_of_leaf, digests_in_log, KeepsVotes};

use crate::logs::{Executed, unsupported};
use crate::votes::Votes;
use cs_audit_dump::{Dump, Log};
use cs_audit_rules::Fault;
use cs_base::{Config, Memory};
use cs_tx::{Digest, Effect, Leaf, concerned};
use std::alloc::Global;

// Whether all concerned logs have a vote commit on an accepted session, and one a vote abort on an
// aborted one.
fn is_supported(
    alloc: Global,
    config: &Config,
    votes: &Votes,
    leaf: &Leaf,
    digest: Digest,
) -> Result<bool, Memory>
    requires fits { LeafFits One leaf.now }
    requires named { digest ≡ digest_of_leaf leaf.now }
    ensures { (logs : List AnyLog) → AtEverySetup config.now (λ setup.
        KeepsVotes setup logs votes.now →
        IfOk result (λ supported. supported ≡ is_supported setup logs leaf.now)) }
{
    match leaf.result {
        Effect::Accepted => {
            let shards = concerned(alloc, leaf.action.session(), config)?;
            Ok(votes.all_commit(shards.as_slice(), digest))
        }
        Effect::Aborted => {
            let shards = concerned(alloc, leaf.action.session(), config)?;
            Ok(votes.one_aborts(shards.as_slice(), digest))
        }
        Effect::Voted(_) | Effect::Skipped | Effect::Void => Ok(true),
    }
}

// The first slot of a log whose decision lacks its votes.
fn unsupported_in(
    alloc: Global,
    config: &Config,
    votes: &Votes,
    shard: u16,
    log: &Log,
    digests: &[Digest],
) -> Result<Option<Fault>, Memory>
    requires fits { All (LeafFits One) log.now.leaves }
    requires named { digests.now ≡ digests_in_log log.now }
    ensures { (logs : List AnyLog) → AtEverySetup config.now (λ setup.
        KeepsVotes setup logs votes.now →
        IfOk result (λ fault. fault ≡ unsupported_of setup logs shard 0 log.now.leaves)) }
{
    let leaves = log.leaves.as_slice();
    for slot in 0..leaves.len() {
        if !is_supported(alloc, config, votes, &leaves[slot], digests[slot])? {
            return Ok(Some(unsupported(shard, slot)));
        }
    }
    Ok(None)
}

/// The first decision, in the order of shards and slots, that lacks its votes.
pub(crate) fn first_unsupported(
    alloc: Global,
    dump: &Dump,
    executed: &Executed,
) -> Result<Option<Fault>, Memory>
    requires formed { IsFormed dump.now }
    requires named { executed.now.digests ≡ map digests_in_log dump.now.logs }
    ensures { AtEverySetup dump.now.config (λ setup.
        KeepsVotes setup dump.now.logs executed.now.votes →
        IfOk result (λ fault. fault ≡ support_fault setup dump.now.logs 0 dump.now.logs)) }
{
    let logs = dump.logs.as_slice();
    let digests = executed.digests.as_slice();
    for place in 0..logs.len() {
        let (config, votes) = (&dump.config, &executed.votes);
        let (log, named) = (&logs[place], digests[place].as_slice());
        let found = unsupported_in(alloc, config, votes, place as u16, log, named)?;
        if found.is_some() {
            return Ok(found);
        }
    }
    Ok(None)
}

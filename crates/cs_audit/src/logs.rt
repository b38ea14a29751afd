//! The logs of all shards, executed one after the other.
ghost use Rattle.std.specs.Prelude.{◌≡◌, IfOk};
ghost use Rattle.std.specs.List.{All};
ghost use Rattle.cs_base.specs.declared.version.Version.TheVariants.{One};
ghost use Rattle.cs_tx_types.specs.Log.{LeafFits};
ghost use Rattle.cs_check_rules.specs.Chain.{empty_log, kept_of};
ghost use Rattle.cs_node_pool.specs.Deployed.{AtAnyGenesis, deployed_setup};
ghost use Rattle.cs_audit_dump.specs.Formed.{IsFormed};
ghost use Rattle.cs_audit_rules.specs.declared.verdict.Rule.TheVariants as rule;
ghost use Rattle.cs_audit_rules.specs.Slots.{fault_at};
ghost use Rattle.cs_sbac.specs.Genesis.{keyed_from};
ghost use Rattle.cs_audit.specs.Kept.{TellsLog, TellsFirstFault};
ghost use Rattle.cs_audit.specs.Standing.{IsPlaced, stand_of};

use crate::stand::Stand;
use crate::votes::Votes;
use cs_audit_dump::{Dump, Log};
use cs_audit_rules::{Fault, Rule};
use cs_base::{Key, Memory, Sequence};
use cs_tx::{Digest, Judge, Object, session_digest};
use std::alloc::Global;

/// What the logs came to: the digest of the session of each leaf, and the votes.
#[derive(Drop)]
pub(crate) struct Executed {
    pub(crate) digests: Sequence<Sequence<Digest>>,
    pub(crate) votes: Votes,
}

fn fault(broken: Rule, shard: u16, slot: usize) -> Fault
    ensures { result ≡ fault_at shard slot broken }
{
    Fault {
        rule: broken,
        shard: Some(shard),
        slot: slot as u64,
    }
}

/// A decision of a slot that lacks the votes for it.
pub(crate) fn unsupported(shard: u16, slot: usize) -> Fault
    ensures { result ≡ fault_at shard slot rule.Support }
{
    fault(Rule::Support, shard, slot)
}

// The digests of the sessions of a log, or the first rule that it breaks.
fn execute_log<J: Judge>(
    alloc: Global,
    stand: &mut Stand,
    shard: u16,
    log: &Log,
    judge: &J,
    votes: &mut Votes,
) -> Result<Result<Sequence<Digest>, Fault>, Memory>
    requires fits { All (LeafFits One) log.now.leaves }
    requires placed { IsPlaced stand.old }
    requires shard { stand.old.shard ≡ shard }
    requires chain { stand.old.chain.kept ≡ kept_of (empty_log shard) }
    ensures { AtAnyGenesis stand.old.config (J.is_approved judge.now) (λ setup. IfOk result
        (TellsLog setup shard log.now (stand_of (empty_log shard) stand.old) votes.old votes.new)) }
{
    let mut digests = Sequence::new(alloc);
    for (slot, leaf) in log.leaves.as_slice().iter().enumerate() {
        let digest = session_digest(alloc, leaf.action.session())?;
        match stand.take(alloc, judge, log.heads.as_slice(), leaf, &digest)? {
            Some(rule) => return Ok(Err(fault(rule, shard, slot))),
            None => {}
        }
        votes.note(shard, &leaf.action, leaf.result, digest)?;
        digests.push(digest)?;
    }
    Ok(Ok(digests))
}

/// Executes the log of each shard in order, up to the first rule that is broken.
pub(crate) fn execute_logs<J: Judge>(
    alloc: Global,
    dump: &Dump,
    genesis: &[(Key, Object)],
    judge: &J,
) -> Result<Result<Executed, Fault>, Memory>
    requires formed { IsFormed dump.now }
    requires named { genesis.now ≡ keyed_from 0 dump.now.genesis }
    ensures { IfOk result (TellsFirstFault
        (deployed_setup dump.now.config dump.now.genesis (J.is_approved judge.now)) dump.now.logs) }
{
    let mut digests = Sequence::new(alloc);
    let mut votes = Votes::new(alloc);
    for (place, log) in dump.logs.as_slice().iter().enumerate() {
        let shard = place as u16;
        let mut stand = Stand::new(alloc, dump.config, shard, genesis)?;
        match execute_log(alloc, &mut stand, shard, log, judge, &mut votes)? {
            Ok(more) => digests.push(more)?,
            Err(fault) => return Ok(Err(fault)),
        }
    }
    Ok(Ok(Executed { digests, votes }))
}

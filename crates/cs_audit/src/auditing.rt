//! The audit.
ghost use Rattle.std.specs.Prelude.{◌≡◌, Bool, None, IfOk, map};
ghost use Rattle.cs_base.specs.Options.{or_else};
ghost use Rattle.cs_tx_types.specs.declared.transaction.Tx.{Tx as AnyTx};
ghost use Rattle.cs_audit_dump.specs.Formed.{IsFormed};
ghost use Rattle.cs_audit_rules.specs.Sound.{SaysSound};
ghost use Rattle.cs_audit_rules.specs.Slots.{logs_fault};
ghost use Rattle.cs_audit_rules.specs.Support.{support_fault};
ghost use Rattle.cs_audit_rules.specs.Verdicts.{setup_in, told_fault, first_fault, verdict_of};
ghost use Rattle.cs_sbac.specs.Genesis.{keyed_from};
ghost use Rattle.cs_audit.specs.Kept.{KeepsVotes, digests_in_log};

use crate::history::first_untold;
use crate::logs::{Executed, execute_logs};
use crate::support::first_unsupported;
use cs_audit_dump::Dump;
use cs_audit_rules::{Fault, Verdict, unbroken_dumps_are_sound};
use cs_base::{Key, Memory, Sequence};
use cs_sbac::keyed;
use cs_tx::{Digest, Judge, Object};
use std::alloc::Global;

/// Executes the logs of a dump anew, and compares what they tell with what they come to. Yes has
/// the history; No the first rule that is broken, in the order of shards and slots.
pub fn audit<J: Judge>(alloc: Global, dump: &Dump, judge: &J) -> Result<Verdict, Memory>
    requires { IsFormed dump.now }
    ensures verdict { IfOk result
        (λ verdict. verdict ≡ verdict_of (J.is_approved judge.now) dump.now) }
    // Of any dump: strings that are hashed may collide.
    ensures sound { IfOk result
        (λ verdict. SaysSound (setup_in (J.is_approved judge.now) dump.now) dump.now verdict) }
{
    unbroken_dumps_are_sound();
    match first_fault(alloc, dump, judge)? {
        Some(fault) => Ok(Verdict::No(fault)),
        None => Ok(Verdict::Yes(copied(alloc, dump.history.as_slice())?)),
    }
}

fn copied(alloc: Global, history: &[Digest]) -> Result<Sequence<Digest>, Memory>
    ensures { IfOk result (λ copy. copy ≡ history.now) }
{
    Ok(Sequence::from_vec(Vec::from_slice(alloc, history)?))
}

fn first_fault<J: Judge>(alloc: Global, dump: &Dump, judge: &J) -> Result<Option<Fault>, Memory>
    requires { IsFormed dump.now }
    ensures { IfOk result (λ fault.
        fault ≡ first_fault (setup_in (J.is_approved judge.now) dump.now) dump.now) }
{
    let genesis = keyed(alloc, dump.genesis.as_slice())?;
    match execute_logs(alloc, dump, genesis.as_slice(), judge)? {
        Ok(executed) => first_disagreement(alloc, dump, genesis.as_slice(), &executed),
        Err(fault) => Ok(Some(fault)),
    }
}

// The first decision without support, or the first place of the history that is wrong.
fn first_disagreement(
    alloc: Global,
    dump: &Dump,
    genesis: &[(Key, Object)],
    executed: &Executed,
) -> Result<Option<Fault>, Memory>
    requires formed { IsFormed dump.now }
    requires genesis { genesis.now ≡ keyed_from 0 dump.now.genesis }
    requires named { executed.now.digests ≡ map digests_in_log dump.now.logs }
    ensures { (approves : AnyTx → Bool) → let setup = setup_in approves dump.now in
        logs_fault setup 0 dump.now.logs ≡ None → KeepsVotes setup dump.now.logs executed.now.votes →
        IfOk result (λ fault. fault ≡ or_else
        (support_fault setup dump.now.logs 0 dump.now.logs) (told_fault setup dump.now)) }
{
    match first_unsupported(alloc, dump, executed)? {
        Some(fault) => Ok(Some(fault)),
        None => first_untold(alloc, dump, genesis, executed),
    }
}

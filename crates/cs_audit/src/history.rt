//! The history that a dump tells, against the votes in its logs and the plain ledger.
ghost use Rattle.std.specs.Prelude.{◌≡◌, ◌++◌, [], ◌∷◌, List, ℕ, Bool, None, Some, IfOk, OnOk, IfSome, map, option_copied, filter, slice_get};
ghost use Rattle.std.specs.List.{All, flat_map};
ghost use Rattle.cs_tx_value.specs.declared.object.Object.{Object as AnyObject};
ghost use Rattle.cs_tx_types.specs.declared.session.Session.{Session as AnySession};
ghost use Rattle.cs_tx_types.specs.declared.transaction.Tx.{Tx as AnyTx};
ghost use Rattle.cs_base.specs.declared.version.Version.TheVariants.{One};
ghost use Rattle.cs_tx_types.specs.Log.{LeafFits};
ghost use Rattle.cs_tx_types.specs.Transaction.{TxFits};
ghost use Rattle.cs_ledger.specs.Ledger.{Ledger as Plain};
ghost use Rattle.cs_tx_types.specs.Session.{session_in};
ghost use Rattle.cs_node_pool.specs.Deployed.{deployed_setup};
ghost use Rattle.cs_audit_dump.specs.Formed.{IsFormed, IsFormedLog};
ghost use Rattle.cs_audit_dump.specs.declared.dump.Log.{Log as AnyLog};
ghost use Rattle.cs_audit_rules.specs.History.{history_fault_at, prepared_session, committed as committed_in};
ghost use Rattle.cs_audit_rules.specs.Slots.{logs_fault};
ghost use Rattle.cs_audit_rules.specs.Support.{all_logs_commit};
ghost use Rattle.cs_audit_rules.specs.Verdicts.{told_fault};
ghost use Rattle.cs_audit.specs.Committed.{tx_in_logs, commits, FindsTransactions, LedgerGoesOn};
ghost use Rattle.cs_sbac.specs.Genesis.{keyed_from};
ghost use Rattle.cs_audit.specs.Ledgers.{ShowsLedger};
ghost use Rattle.cs_audit.specs.Kept.{KeepsVotes, digest_of_leaf, digests_in_log};

use crate::ledger::Ledger;
use crate::logs::Executed;
use crate::votes::Votes;
use cs_audit_dump::{Dump, Log};
use cs_audit_rules::{Fault, Rule};
use cs_base::{Config, Key, Memory};
use cs_tx::{Action, Digest, Leaf, Object, Tx, concerned, tx_digest};
use indexmap::IndexMap;
use std::alloc::Global;

/// Transactions on which all concerned logs vote commit: under the digest of each the shard and the
/// slot of its first Prepare.
type Committed = IndexMap<Digest, (usize, usize)>;

fn fault(place: usize) -> Fault
    ensures { result ≡ history_fault_at place }
{
    Fault {
        rule: Rule::History,
        shard: None,
        slot: place as u64,
    }
}

// Whether a leaf is a Prepare of a session on which every concerned log has a vote commit.
fn commits(
    alloc: Global,
    config: &Config,
    votes: &Votes,
    leaf: &Leaf,
    digest: Digest,
) -> Result<bool, Memory>
    requires fits { LeafFits One leaf.now }
    requires named { digest ≡ digest_of_leaf leaf.now }
    ensures { (objects : List AnyObject) (approves : AnyTx → Bool) (logs : List AnyLog) →
        let setup = deployed_setup config.now objects approves in KeepsVotes setup logs votes.now →
        IfOk result (λ yes. yes ≡ commits setup logs leaf.now.action) }
{
    match &leaf.action {
        Action::Prepare(session) => {
            let shards = concerned(alloc, session, config)?;
            Ok(votes.all_commit(shards.as_slice(), digest))
        }
        Action::Decide(..) => Ok(false),
    }
}

// Adds a transaction at a place, unless one of its digest is there.
fn add(alloc: Global, found: &mut Committed, tx: &Tx, place: (usize, usize)) -> Result<(), Memory>
    requires { TxFits tx.now }
    ensures { (logs : List AnyLog) (sessions : List AnySession) (session : AnySession) →
        session.tx ≡ tx.now → tx_in_logs logs place ≡ Some tx.now →
        FindsTransactions logs found.old.entries sessions [] →
        OnOk result (FindsTransactions logs found.new.entries (sessions ++ session ∷ []) []) }
{
    let digest = tx_digest(alloc, tx)?;
    if found.contains_key(&digest) {
        return Ok(());
    }
    found.insert(digest, place)?;
    Ok(())
}

// Adds the transaction of the leaf at a place, where it is a Prepare that commits.
fn add_leaf(
    alloc: Global,
    found: &mut Committed,
    config: &Config,
    votes: &Votes,
    place: (usize, usize),
    leaf: &Leaf,
    digest: Digest,
) -> Result<(), Memory>
    requires fits { LeafFits One leaf.now }
    requires named { digest ≡ digest_of_leaf leaf.now }
    ensures { (objects : List AnyObject) (approves : AnyTx → Bool) (logs : List AnyLog)
        (sessions : List AnySession) → let setup = deployed_setup config.now objects approves in
        KeepsVotes setup logs votes.now → tx_in_logs logs place ≡ Some (session_in leaf.now.action).tx →
        FindsTransactions logs found.old.entries sessions [] → OnOk result (FindsTransactions logs found.new.entries
        (sessions ++ filter (all_logs_commit setup logs) (prepared_session leaf.now.action)) []) }
{
    if !commits(alloc, config, votes, leaf, digest)? {
        return Ok(());
    }
    add(alloc, found, &leaf.action.session().tx, place)?;
    Ok(())
}

// Adds the transactions of a shard's log.
fn add_log(
    alloc: Global,
    found: &mut Committed,
    config: &Config,
    votes: &Votes,
    shard: usize,
    log: &Log,
    digests: &[Digest],
) -> Result<(), Memory>
    requires fits { All (LeafFits One) log.now.leaves }
    requires named { digests.now ≡ digests_in_log log.now }
    ensures { (objects : List AnyObject) (approves : AnyTx → Bool) (logs : List AnyLog)
        (sessions : List AnySession) → let setup = deployed_setup config.now objects approves in
        KeepsVotes setup logs votes.now → slice_get logs shard ≡ Some log.now →
        FindsTransactions logs found.old.entries sessions [] → OnOk result (FindsTransactions logs found.new.entries
        (sessions ++ filter (all_logs_commit setup logs)
        (flat_map (λ leaf. prepared_session leaf.action) log.now.leaves)) []) }
{
    let leaves = log.leaves.as_slice();
    for slot in 0..leaves.len() {
        let leaf = &leaves[slot];
        add_leaf(
            alloc,
            found,
            config,
            votes,
            (shard, slot),
            leaf,
            digests[slot],
        )?;
    }
    Ok(())
}

// The committed transactions of all logs.
fn committed(alloc: Global, dump: &Dump, executed: &Executed) -> Result<Committed, Memory>
    requires formed { IsFormed dump.now }
    requires named { executed.now.digests ≡ map digests_in_log dump.now.logs }
    ensures { (approves : AnyTx → Bool) →
        let setup = deployed_setup dump.now.config dump.now.genesis approves in
        KeepsVotes setup dump.now.logs executed.now.votes → IfOk result (λ found.
        FindsTransactions dump.now.logs found.entries (committed_in setup dump.now.logs) []) }
{
    let mut found = IndexMap::new(alloc);
    let logs = dump.logs.as_slice();
    let digests = executed.digests.as_slice();
    for shard in 0..logs.len() {
        let (config, votes) = (&dump.config, &executed.votes);
        let named = digests[shard].as_slice();
        add_log(alloc, &mut found, config, votes, shard, &logs[shard], named)?;
    }
    Ok(found)
}

// The transaction of the leaf at a place.
fn tx_at(logs: &[Log], place: (usize, usize)) -> Option<&Tx>
    ensures is { option_copied result ≡ tx_in_logs logs.now place }
    ensures fits { All IsFormedLog logs.now → IfSome result (λ tx. TxFits tx.now) }
{
    let log = match logs.get(place.0) {
        Some(log) => log,
        None => return None,
    };
    match log.leaves.as_slice().get(place.1) {
        Some(leaf) => Some(&leaf.action.session().tx),
        None => None,
    }
}

// Whether the ledger takes the transaction of a digest, which is told now.
fn tell(
    alloc: Global,
    logs: &[Log],
    found: &mut Committed,
    ledger: &mut Ledger,
    digest: &Digest,
) -> Result<bool, Memory>
    requires { All IsFormedLog logs.now }
    ensures { (approves : AnyTx → Bool) (sessions : List AnySession) (plain : Plain)
        (earlier : List (List ℕ)) → FindsTransactions logs.now found.old.entries sessions earlier →
        ShowsLedger ledger.old plain → IfOk result (LedgerGoesOn logs.now approves sessions plain earlier
        digest.now found.new.entries ledger.new) }
{
    let place = match found.swap_remove(digest) {
        Some(place) => place,
        None => return Ok(false),
    };
    let tx = match tx_at(logs, place) {
        Some(tx) => tx,
        None => return Ok(false),
    };
    let taken = ledger.take(alloc, tx, digest)?;
    Ok(taken)
}

/// The first place of the history that is wrong, or the place behind it where a transaction is
/// missing.
pub(crate) fn first_untold(
    alloc: Global,
    dump: &Dump,
    genesis: &[(Key, Object)],
    executed: &Executed,
) -> Result<Option<Fault>, Memory>
    requires formed { IsFormed dump.now }
    requires genesis { genesis.now ≡ keyed_from 0 dump.now.genesis }
    requires named { executed.now.digests ≡ map digests_in_log dump.now.logs }
    // Each transaction is well formed and approved where the logs break no rule.
    ensures { (approves : AnyTx → Bool) →
        let setup = deployed_setup dump.now.config dump.now.genesis approves in
        logs_fault setup 0 dump.now.logs ≡ None → KeepsVotes setup dump.now.logs executed.now.votes →
        IfOk result (λ fault. fault ≡ told_fault setup dump.now) }
{
    let mut found = committed(alloc, dump, executed)?;
    let mut ledger = Ledger::genesis(alloc, genesis)?;
    for (place, digest) in dump.history.as_slice().iter().enumerate() {
        if !tell(alloc, dump.logs.as_slice(), &mut found, &mut ledger, digest)? {
            return Ok(Some(fault(place)));
        }
    }
    if !found.is_empty() {
        return Ok(Some(fault(dump.history.len())));
    }
    Ok(None)
}

//! What is printed.
ghost use Rattle.std.specs.Prelude.{◌≡◌, Some, IfOk, string_bytes};
ghost use Rattle.cs_base.specs.Codes.{bytes_text};
ghost use Rattle.cs_tx.specs.Digest.{digest_of_session};
ghost use Rattle.cs_tx_types.specs.Session.{ActionFits, session_in};
ghost use Rattle.cs_base.specs.declared.version.Version.TheVariants.{One};
ghost use Rattle.cs_tx_types.specs.Log.{ProofFits};
ghost use Rattle.cs_verify.specs.Verdicts.{VerdictFits, entry_words, result_word, shown_line as line_of, claim_text as text_of};

use crate::judging::Verdict;
use cs_base::{Memory, print_bytes};
use cs_check_rules::Proof;
use cs_text::refusal_line;
use cs_tx::{Action, Effect, Vote, session_digest};
use std::alloc::Global;

/// The line of a verdict, with its LF.
pub fn verdict_text(alloc: Global, verdict: &Verdict) -> Result<String, Memory>
    requires { VerdictFits verdict.now }
    ensures { IfOk result (λ text. string_bytes text ≡ text_of verdict.now) }
{
    match verdict {
        Verdict::Shown(proof) => shown_line(alloc, proof),
        Verdict::NotShown => Ok(String::from_str(alloc, "not shown\n")?),
        Verdict::Refused(refusal) => Ok(refusal_line(alloc, *refusal)?),
    }
}

fn shown_line(alloc: Global, proof: &Proof) -> Result<String, Memory>
    requires { ProofFits One proof.now }
    ensures { let p = proof.now in IfOk result (λ text. string_bytes text
        ≡ line_of p.checkpoint.shard p.leaf.slot p.leaf.action p.leaf.result) }
{
    let shard = proof.checkpoint.shard;
    let slot = proof.leaf.slot;
    let entry = entry_words(&proof.leaf.action);
    let digest = digest_text(alloc, &proof.leaf.action)?;
    let result = result_word(proof.leaf.result);
    Ok(format!(in alloc; "shown {shard} {slot} {entry} {digest} {result}\n")?)
}

fn digest_text(alloc: Global, entry: &Action) -> Result<String, Memory>
    requires { ActionFits entry.now }
    ensures { IfOk result (λ text.
        string_bytes text ≡ bytes_text (digest_of_session (session_in entry.now))) }
{
    let digest = session_digest(alloc, entry.session())?;
    print_bytes(alloc, digest.as_slice())
}

fn entry_words(entry: &Action) -> &'static str
    ensures { result.now ≡ entry_words entry.now }
{
    match entry {
        Action::Prepare(_) => "prepare",
        Action::Decide(Vote::Commit, _) => "decide commit",
        Action::Decide(Vote::Abort, _) => "decide abort",
    }
}

fn result_word(effect: Effect) -> &'static str
    ensures { result.now ≡ result_word effect }
{
    match effect {
        Effect::Voted(Vote::Commit) => "commit",
        Effect::Voted(Vote::Abort) => "abort",
        Effect::Accepted => "accepted",
        Effect::Aborted => "aborted",
        Effect::Skipped => "skipped",
        Effect::Void => "void",
    }
}

//! Whether the proof that is handed in shows its leaf.
ghost use Rattle.std.specs.Prelude.{◌≡◌, Ok, IfOk};
ghost use Rattle.cs_base.specs.declared.limits.TheConstants.{MOST_SCHEDULE};
ghost use Rattle.cs_base.specs.declared.version.Version.TheVariants.{One};
ghost use Rattle.cs_tx_types.specs.Log.{ProofFits};
ghost use Rattle.cs_verify.specs.declared.claim.Claim.{Claim as AnyClaim};
ghost use Rattle.cs_verify.specs.Text.{claim_of};
ghost use Rattle.cs_verify.specs.Verdicts.{verdict_on, claim_verdict, claim_status, VerdictFits, ShowsExactly, VerdictTells};

use crate::claim::Claim;
use crate::reader::parse_claim;
use cs_base::Memory;
use cs_check_rules::{Proof, shows};
use cs_text::{Refusal, TextError};
use std::alloc::Global;

/// What is answered to a text.
#[derive(Drop)]
pub enum Verdict {
    /// The proof shows its leaf to who trusts the head.
    Shown(Proof),
    /// It doesn't.
    NotShown,
    /// The text has a bad line.
    Refused(Refusal),
}

impl Verdict {
    /// The status of a program that answers so.
    pub fn status(&self) -> u8
        ensures { result ≡ claim_status self.now }
    {
        match self {
            Verdict::Shown(_) => 0,
            Verdict::NotShown => 9,
            Verdict::Refused(refusal) => refusal.status(),
        }
    }
}

/// Judges the claim of a text: a line `head` with the digest that the reader trusts, say since more
/// nodes of the shard told it than lie, and a line `proof` or `datagram`.
pub fn judge(alloc: Global, text: &[u8]) -> Result<Verdict, Memory>
    ensures verdict { IfOk result
        (λ verdict. verdict ≡ claim_verdict (claim_of MOST_SCHEDULE text.now)) }
    ensures fits { IfOk result VerdictFits }
    ensures shown { (claim : AnyClaim) → claim_of MOST_SCHEDULE text.now ≡ Ok claim
        → IfOk result (ShowsExactly claim) }
    // Where no strings collide, what is shown is what the checkpoint with the trusted head covers.
    ensures tells { (claim : AnyClaim) → claim_of MOST_SCHEDULE text.now ≡ Ok claim
        → IfOk result (VerdictTells claim.head) }
{
    match parse_claim(alloc, text) {
        Ok(claim) => judge_claim(alloc, claim),
        Err(TextError::Line(refusal)) => Ok(Verdict::Refused(refusal)),
        Err(TextError::Memory) => Err(Memory),
    }
}

fn judge_claim(alloc: Global, claim: Claim) -> Result<Verdict, Memory>
    requires { ProofFits One claim.proof }
    ensures verdict { IfOk result (λ verdict. verdict ≡ verdict_on claim) }
    ensures fits { IfOk result VerdictFits }
    ensures tells { IfOk result (VerdictTells claim.head) }
{
    let Claim { head, proof } = claim;
    if shows(alloc, &head, &proof)? {
        return Ok(Verdict::Shown(proof));
    }
    Ok(Verdict::NotShown)
}

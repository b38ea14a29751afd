//! What is shown of claims.
ghost use Rattle.cs_base.specs.declared.version.Version.TheVariants.{One};
ghost use Rattle.cs_tx_types.specs.Log.{ProofFits};
ghost use Rattle.cs_verify.specs.declared.claim.Claim.{Claim};
ghost use Rattle.cs_verify.specs.Verdicts.{verdict_on, ShowsExactly, VerdictTells};

/// A claim is `shown` exactly where its proof leads to its head; then, where no strings collide,
/// each checkpoint with that head is the proof's, and has the leaf at its place.
pub fn shown_claims_are_covered()
    ensures shown { (claim : Claim) → ShowsExactly claim (verdict_on claim) }
    ensures covered { (claim : Claim) → ProofFits One claim.proof → VerdictTells claim.head (verdict_on claim) }
{}

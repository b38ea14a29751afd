//! Claims, read of a text.
ghost use Rattle.std.specs.Prelude.{IfOk};
ghost use Rattle.cs_base.specs.declared.limits.TheConstants.{MOST_SCHEDULE};
ghost use Rattle.cs_base.specs.declared.version.Version.TheVariants.{One};
ghost use Rattle.cs_tx_types.specs.Log.{ProofFits};
ghost use Rattle.cs_text.specs.Reading.{GivesText};
ghost use Rattle.cs_verify.specs.Text.{claim_of};

use crate::claim::{Claim, Draft};
use cs_base::MOST_SCHEDULE;
use cs_text::{TextError, parse_text};
use std::alloc::Global;

/// The claim of a text of at most `MOST_SCHEDULE` bytes, or its first bad line. Of a longer text
/// the lines that end within that length are read first; where none of them is bad the refusal is
/// `Limit`, at the line in which the next byte stands.
#[tactic(auto, unfolding(crate::specs::Text::claim_of))]
pub(crate) fn parse_claim(alloc: Global, text: &[u8]) -> Result<Claim, TextError>
    ensures given { GivesText result (claim_of MOST_SCHEDULE text.now) }
    ensures fits { IfOk result (λ claim. ProofFits One claim.proof) }
{
    parse_text::<Draft>(alloc, MOST_SCHEDULE, text)
}

//! A proof that a chain gives fits: what the chain doesn't tell of its limits, the types do.
ghost use Rattle.std.specs.List.{AllByRecursion};
ghost use Rattle.cs_tx_value.specs.Object.{DigestFits};

use cs_check_rules::Digest;
use cs_tx_types::digest_fits;

/// Each of these digests is within all limits.
pub(crate) fn digests_fit(digests: &[Digest])
    ensures { AllByRecursion DigestFits digests.now }
{
    for digest in digests {
        digest_fits(digest);
    }
}

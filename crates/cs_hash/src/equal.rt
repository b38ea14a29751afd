//! Equality of digests.
ghost use Rattle.std.specs.Prelude.{◌≡◌, ◌↔◌, IsTrue};

use crate::Digest;

/// Whether two digests are equal. It looks at every byte, wherever they differ first, lest the time it takes tell
/// of a tag; what a compiler makes of that is not proved.
pub fn same(a: &Digest, b: &Digest) -> bool
    ensures { IsTrue result ↔ (a.now ≡ b.now) }
{
    let mut differing = 0;
    for i in 0..32 {
        differing |= a[i] ^ b[i];
    }
    differing == 0
}

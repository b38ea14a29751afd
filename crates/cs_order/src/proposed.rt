//! An entry that is proposed for a slot.
ghost use Rattle.std.specs.Prelude.{◌≡◌, IfOk};

use cs_base::{Memory, Sequence};
use std::alloc::Global;

/// An entry and its digest. An order compares digests and never reads the bytes.
#[derive(Drop, PartialEq, Eq)]
pub struct Proposed {
    pub digest: [u8; 32],
    pub bytes: Sequence<u8>,
}

impl Proposed {
    /// The same entry again.
    pub fn copy(&self, alloc: Global) -> Result<Self, Memory>
        ensures { IfOk result (λ copied. copied ≡ self.now) }
    {
        let bytes = Vec::from_slice(alloc, self.bytes.as_slice())?;
        Ok(Proposed {
            digest: self.digest,
            bytes: Sequence::from_vec(bytes),
        })
    }
}

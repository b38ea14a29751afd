//! A transaction that was judged.
ghost use Rattle.std.specs.Prelude.{◌≡◌, IfOk, IsTrue};
ghost use Rattle.cs_tx_types.specs.Transaction.{TxFits, tx_encoding};

use cs_base::Memory;
use cs_tx::{Digest, Encoded, Tx, tx_digest};
use std::alloc::Global;

/// A transaction by its encoding, with its digest, under which it is found.
#[derive(Drop)]
pub struct Judged {
    pub digest: Digest,
    pub encoding: Vec<u8>,
}

impl Judged {
    /// What is kept of a transaction.
    pub fn of(alloc: Global, tx: &Tx) -> Result<Judged, Memory>
        requires { TxFits tx.now }
        ensures { IfOk result (λ judged. judged.encoding.items ≡ tx_encoding tx.now) }
    {
        let digest = tx_digest(alloc, tx)?;
        let encoding = tx.to_bytes(alloc)?;
        Ok(Judged { digest, encoding })
    }

    /// Whether it has the other's encoding. Nothing rests on digests: they only say where to look.
    pub fn is(&self, other: &Judged) -> bool
        ensures { IsTrue result → self.now.encoding.items ≡ other.now.encoding.items }
    {
        self.encoding.as_slice() == other.encoding.as_slice()
    }
}
